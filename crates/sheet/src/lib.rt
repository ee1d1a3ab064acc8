// The text format: a sheet read into a lent table, and a table written as a sheet.
//
// Uses `answer` alone. Document 01, "The sheet and the table" and "What a refused sheet is told";
// the definitions stand in specs/Field.antt, Line.antt and Sheet.antt, in that order. The theorems,
// the round trip among them, are in proofs/Theorems.antt.
#![tactic(auto)]

mod field;
mod line;
mod reader;
mod writer;

ghost use Rattle.std.specs.Prelude.{◌≡◌, ◌<◌};
ghost use Rattle.answer.specs.Length.{most_rows};
ghost use Rattle.sheet.specs.Sheet.{placed};

use answer::{Reason, Refusal};
pub use line::{LINE, ROW, print_line};
pub use reader::read;
pub use writer::{print_rows, write};

// The refusal at a row and a column, which count from 0 here and from 1 where they are told. (`survey` makes its
// own, by what a row knows: one maker for both would be open to callers and ask them for small places, and no
// function that they call asks for anything.)
fn refusal_at(reason: Reason, row: usize, column: usize) -> Refusal
    requires row { row < most_rows }
    requires column { column < 9 }
    ensures { result ≡ placed reason row column }
{
    Refusal {
        reason,
        row: row as u32 + 1,
        column: column as u32 + 1,
    }
}
