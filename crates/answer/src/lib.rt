// What every operation on lent storage answers: a count, or a refusal with its place.
//
// The first layer: it uses no other crate, and every crate that answers uses it. The definition `told`
// (specs/Told.antt) gives document 01's number and values for each case, and every promise about an
// answer uses it. What the other layers share stands here too: the limits and the rule of refusal 1
// (specs/Length.antt), the first place at which a test holds (specs/First.antt), lists and parts of
// lists (specs/Lists.antt), and the houses that the examples speak of (specs/Houses.antt).
#![tactic(auto)]

mod refusal;

ghost use Rattle.std.specs.Prelude.{◌≡◌};
ghost use Rattle.answer.specs.Length.{whole_rows};

pub use refusal::{Answer, Reason, Refusal};

// How many numbers a row of a table has.
pub const ROW: usize = 8;

// The most walls of a house.
pub const MOST_WALLS: usize = 300;
// The most lines of a sheet, and the most rows of a table: the house's row, three rows of storeys, six
// rows of ends, the walls, the parts row, the dates row.
pub const MOST_ROWS: usize = 1 + 3 + 6 + MOST_WALLS + 1 + 1;
// The numbers of the longest table.
pub const MOST_NUMBERS: usize = MOST_ROWS * ROW;

// How many lines of `unit` bytes, or rows of `unit` numbers, a length holds, or refusal 1: nothing lent, a
// length that is no multiple of `unit`, or too many lines or rows.
pub fn rows_in(length: usize, unit: usize) -> Result<usize, Refusal>
    ensures { result ≡ whole_rows unit length }
{
    if unit == 0 || length % unit != 0 {
        return Err(Refusal::without_place(Reason::SheetLength));
    }
    let rows = length / unit;
    if rows == 0 || MOST_ROWS < rows {
        return Err(Refusal::without_place(Reason::SheetLength));
    }
    Ok(rows)
}
