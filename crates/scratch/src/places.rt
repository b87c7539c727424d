// The places of the lent scratch, layer by layer, a reader of the marks and a writer of both.
// Reading past the end gives 0 and writing there changes nothing, so neither has a bound to keep; `place` has one.
ghost use Rattle.std.specs.Prelude.{◌≡◌, ◌≤◌, set};
ghost use Rattle.plan_rules.specs.Scratch.{counts_named, marks_named, place, remembered_place, count_place, is_marked};

// ---- Places

// A cell's place in a layer. A layer is at most a 32-bit depth and 1, and up to there no place wraps.
pub fn place(cells: u32, layer: usize, cell: u32) -> usize
    requires { layer ≤ 4294967296 }
    ensures { result ≡ place cells layer cell }
{
    layer * (cells as usize) + (cell as usize)
}

// In the marks: whether `complexity_cache` has a count for a cell at a depth.
pub fn remembered_place(cells: u32, depth: u32, cell: u32) -> usize
    ensures { result ≡ remembered_place cells depth cell }
{
    place(cells, (depth as usize) + 1, cell)
}

// In the counts: that count.
pub fn count_place(cells: u32, depth: u32, cell: u32) -> usize
    ensures { result ≡ count_place cells depth cell }
{
    place(cells, (depth as usize).saturating_sub(1), cell)
}

// ---- How many places a plan names. No product wraps: (2^32 - 1) * (2^32 + 1) is 2^64 - 1.

pub fn counts_named(cells: u32, depth: u32) -> usize
    ensures { result ≡ counts_named cells depth }
{
    (cells as usize) * (depth as usize)
}

pub fn marks_named(cells: u32, depth: u32) -> usize
    ensures { result ≡ marks_named cells depth }
{
    (cells as usize) * ((depth as usize) + 2)
}

// ---- A reader of the marks, and a writer of both

pub fn is_marked(marks: &[u8], place: usize) -> bool
    ensures { result ≡ is_marked marks.now place }
{
    marks.get(place).copied().unwrap_or(0) != 0
}

// Kept: an `if` and no `get_mut` (c): of what is written through that, a proof knows the length alone.
pub fn set<T: Copy>(places: &mut [T], place: usize, value: T)
    ensures { places.new ≡ set places.old place value }
{
    if place < places.len() {
        places[place] = value;
    }
}
