// The answer to an input: a query, and then the sheet. A plan is answered by the length of its tape.
ghost use Rattle.std.specs.Prelude.{◌≤◌, length};
ghost use Rattle.streams.specs.Moving.{Within};
ghost use Rattle.plan_answer.specs.Text.{tape_end};
ghost use Rattle.plan_answer.specs.Reply.{Replies, reply_of_query, reply_of, reply_of_input};

use crate::lent::Lent;
use crate::no_plan::NoPlan;
use crate::opened::plan_opened;
use plan_query::QueryRecord;
use streams::ReadError;

// Plans the sheet behind the query, with a finder in the lent list.
fn plan_query(input: &[u8], query: QueryRecord, lent: &mut Lent) -> Result<usize, NoPlan>
    requires sheet_within { query.sheet ≤ length input.now }
    requires layers_within { query.hidden ≤ length lent.old.hidden.now }
    ensures replies { Replies (reply_of_query input.now query) result lent.old lent.new }
    ensures within { tape_end result ≤ length lent.new.tape.now }
{
    let sheet = query.sheet;
    let layers = query.hidden;
    // Kept: lent at once behind one reference, the places left the proof open, so they are taken out and put back.
    let Lent {
        finder,
        hidden,
        tape,
        counts,
        marks,
    } = std::mem::take(lent);
    let planned = plan_opened(
        &input[sheet..],
        finder,
        query.options,
        &hidden[..layers],
        tape,
        counts,
        marks,
    );
    *lent = Lent {
        finder,
        hidden,
        tape,
        counts,
        marks,
    };
    match planned {
        Ok(length) => Ok(length),
        Err(error) => Err(NoPlan::Refused(error.number(), error.offset())),
    }
}

// The answer to an input, its tape left at the start of the lent one.
pub fn answer(input: &[u8], lent: &mut Lent) -> Result<usize, NoPlan>
    ensures replies { Replies (reply_of input.now) result lent.old lent.new }
    ensures within { tape_end result ≤ length lent.new.tape.now }
{
    let query = plan_query::read_query(input, lent.hidden)?;
    plan_query(input, query, lent)
}

// The answer to an input that was read into a buffer, as far as it could be read.
pub fn answer_input(
    buffer: &[u8],
    read: Result<usize, ReadError>,
    lent: &mut Lent,
) -> Result<usize, NoPlan>
    requires { Within read buffer.now }
    ensures replies { Replies (reply_of_input buffer.now read) result lent.old lent.new }
    ensures within { tape_end result ≤ length lent.new.tape.now }
{
    let size = read?;
    answer(&buffer[..size], lent)
}
