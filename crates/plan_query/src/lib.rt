// The query: the first record of the input, of kind 20, with its hidden layers.

#![tactic(auto)]

ghost use Rattle.std.specs.Prelude.{◌≡◌, ◌+◌, ◌*◌, ◌≤◌, ◌<◌, length};
ghost use Rattle.std.proofs.lemmas.List.Edits.{sets};
ghost use Rattle.plan_query.specs.Query.{query_length, whole_query, options_at, layers_from, read_query, sheet_at};

use geometry::bbox::WorldBBox;
use plan_rules::SceneOptions;

const QUERY_LENGTH: usize = 54;

const QUERY_KIND: u16 = 20;

// The options, how many hidden layers there are, and where the sheet begins.
#[derive(Clone, Copy)]
pub struct QueryRecord {
    pub options: SceneOptions,
    pub hidden: usize,
    pub sheet: usize,
}

// Why there is no query to answer.
#[derive(Clone, Copy, Debug, PartialEq, Eq)]
pub enum QueryError {
    NoQuery, // the first record is no whole query
    TooLong, // more hidden layers than are lent
}

// Whether the first record is a whole query.
#[tactic(auto, using(std::proofs::lemmas::Bool::Decides::nat_tests), unfolding(crate::specs::Query::whole_query))]
fn is_query(input: &[u8]) -> bool
    ensures { result ≡ whole_query input.now }
{
    if input.len() < QUERY_LENGTH {
        return false;
    }
    let length = fields::u32_at(input, 0) as usize;
    if length < QUERY_LENGTH {
        return false;
    }
    if input.len() < length {
        return false;
    }
    if (length - QUERY_LENGTH) % 4 != 0 {
        return false;
    }
    fields::u16_at(input, fields::KIND) == QUERY_KIND
}

#[tactic(auto, unfolding(crate::specs::Query::options_at))]
fn options_at(input: &[u8]) -> SceneOptions
    ensures { result ≡ options_at input.now }
{
    SceneOptions {
        root: fields::u32_at(input, fields::HEAD),
        depth: fields::u32_at(input, 10),
        view: WorldBBox {
            min_x: fields::f64_at(input, 14),
            min_y: fields::f64_at(input, 22),
            max_x: fields::f64_at(input, 30),
            max_y: fields::f64_at(input, 38),
        },
        zoom: fields::f64_at(input, 46),
    }
}

// Copies so many hidden layers.
fn copy_hidden(input: &[u8], count: usize, hidden: &mut [u32])
    requires count_in_bounds { count ≤ length hidden.old }
    requires count_bound { count < 1073741824 }
    ensures { hidden.new ≡ sets hidden.old 0 (layers_from count input.now query_length) }
{
    for i in 0..count {
        hidden[i] = fields::u32_at(input, QUERY_LENGTH + 4 * i);
    }
}

// Reads the query, and copies its hidden layers to the start of those lent.
#[tactic(auto, using(std::proofs::lemmas::Bool::Decides::nat_tests), unfolding(crate::specs::Query::whole_query, crate::specs::Query::read_query))]
pub fn read_query(input: &[u8], hidden: &mut [u32]) -> Result<QueryRecord, QueryError>
    ensures { (result, hidden.new) ≡ read_query input.now hidden.old }
{
    if !is_query(input) {
        return Err(QueryError::NoQuery);
    }
    let length = fields::u32_at(input, 0) as usize;
    let count = (length - QUERY_LENGTH) / 4;
    if hidden.len() < count {
        return Err(QueryError::TooLong);
    }
    copy_hidden(input, count, hidden);
    Ok(QueryRecord {
        options: options_at(input),
        hidden: count,
        sheet: length,
    })
}

// Where the sheet begins: behind the query, or at the start of an input without one.
#[tactic(auto, using(std::proofs::lemmas::Bool::Decides::nat_tests), unfolding(crate::specs::Query::whole_query, crate::specs::Query::sheet_at))]
pub fn sheet_at(input: &[u8]) -> usize
    ensures value { result ≡ sheet_at input.now }
    ensures upper_bound { result ≤ length input.now }
{
    if !is_query(input) {
        return 0;
    }
    fields::u32_at(input, 0) as usize
}
