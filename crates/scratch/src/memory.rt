// What the planner remembers in the lent scratch: two sets of cells, `cell_stack` and `complexity_stack`, and `complexity_cache`, a map from a cell and a depth to a count.
ghost use Rattle.std.specs.Prelude.{◌≡◌, get_or, set};
ghost use Rattle.plan_rules.specs.Scratch.{place, remembered_place, count_place, is_marked};
ghost use Rattle.scratch.specs.Stack.{layer};
ghost use Rattle.scratch.specs.Lent.{StaysLent, MarksAlone};

use crate::places::{count_place, is_marked, place, remembered_place, set};

// ---- `cell_stack` and `complexity_stack`: a set of cells is a layer of the marks, here any of them

pub fn stack_contains(marks: &[u8], cells: u32, stack: u32, cell: u32) -> bool
    ensures { result ≡ is_marked marks.now (place cells stack cell) }
{
    is_marked(marks, place(cells, stack as usize, cell))
}

pub fn stack_insert(marks: &mut [u8], cells: u32, stack: u32, cell: u32)
    ensures { marks.new ≡ set marks.old (place cells stack cell) 1 }
{
    set(marks, place(cells, stack as usize, cell), 1);
}

pub fn stack_remove(marks: &mut [u8], cells: u32, stack: u32, cell: u32)
    ensures { marks.new ≡ set marks.old (place cells stack cell) 0 }
{
    set(marks, place(cells, stack as usize, cell), 0);
}

// ---- `complexity_cache`

pub fn cache_contains(marks: &[u8], cells: u32, depth: u32, cell: u32) -> bool
    ensures { result ≡ is_marked marks.now (remembered_place cells depth cell) }
{
    is_marked(marks, remembered_place(cells, depth, cell))
}

pub fn cache_get(counts: &[u64], cells: u32, depth: u32, cell: u32) -> u64
    ensures { result ≡ get_or counts.now (count_place cells depth cell) 0 }
{
    let place = count_place(cells, depth, cell);
    counts.get(place).copied().unwrap_or(0)
}

pub fn cache_insert(
    counts: &mut [u64],
    marks: &mut [u8],
    cells: u32,
    depth: u32,
    cell: u32,
    count: u64,
)
    ensures { (counts.new ≡ set counts.old (count_place cells depth cell) count)
        × (marks.new ≡ set marks.old (remembered_place cells depth cell) 1) }
{
    set(marks, remembered_place(cells, depth, cell), 1);
    set(counts, count_place(cells, depth, cell), count);
}

// ---- The same of the lent counts and marks

// The sets of cells. Each has a layer of the marks, that of its number.
#[derive(Clone, Copy)]
pub enum Stack {
    Cell, // the cells that the planner has open
    Complexity, // the cells that are being counted
}

// The lent counts and marks.
#[derive(Drop)]
pub struct Scratch<'a> {
    pub counts: &'a mut [u64],
    pub marks: &'a mut [u8],
}

impl Scratch<'_> {
    pub fn stack_contains(&self, cells: u32, stack: Stack, cell: u32) -> bool
        ensures { result ≡ is_marked self.now.marks.now (place cells (layer stack) cell) }
    {
        stack_contains(self.marks, cells, stack as u32, cell)
    }

    pub fn stack_insert(&mut self, cells: u32, stack: Stack, cell: u32)
        ensures marks { self.new.marks.now ≡ set self.old.marks.now (place cells (layer stack) cell) 1 }
        ensures others { MarksAlone self.old self.new }
    {
        stack_insert(self.marks, cells, stack as u32, cell);
    }

    pub fn stack_remove(&mut self, cells: u32, stack: Stack, cell: u32)
        ensures marks { self.new.marks.now ≡ set self.old.marks.now (place cells (layer stack) cell) 0 }
        ensures others { MarksAlone self.old self.new }
    {
        stack_remove(self.marks, cells, stack as u32, cell);
    }

    pub fn cache_contains(&self, cells: u32, depth: u32, cell: u32) -> bool
        ensures { result ≡ is_marked self.now.marks.now (remembered_place cells depth cell) }
    {
        cache_contains(self.marks, cells, depth, cell)
    }

    pub fn cache_get(&self, cells: u32, depth: u32, cell: u32) -> u64
        ensures { result ≡ get_or self.now.counts.now (count_place cells depth cell) 0 }
    {
        cache_get(self.counts, cells, depth, cell)
    }

    pub fn cache_insert(&mut self, cells: u32, depth: u32, cell: u32, count: u64)
        ensures counts { self.new.counts.now ≡ set self.old.counts.now (count_place cells depth cell) count }
        ensures marks { self.new.marks.now ≡ set self.old.marks.now (remembered_place cells depth cell) 1 }
        ensures others { StaysLent self.old self.new }
    {
        cache_insert(self.counts, self.marks, cells, depth, cell, count);
    }
}
