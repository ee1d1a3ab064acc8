// An answer: a count, or a refusal with its reason and place.
ghost use Rattle.std.specs.Prelude.{◌≡◌};
ghost use Rattle.answer.specs.Told.{number_of, without_place, refusal_row};

use crate::ROW;

// Document 01, "What a refused sheet is told": why a sheet or a table is refused, by the trade's word, with
// the number that is told for it.
#[derive(Clone, Copy, Debug, PartialEq, Eq)]
pub enum Reason {
    SheetLength = 1,
    Misprint = 2,
    RowOutOfOrder = 3,
    OutOfRange = 4,
    TooManyWalls = 5,
    EndsExceedStorey = 6,
    MarkOnAbsentPart = 7,
    NoParts = 8,
    LentSpaceShort = 9,
    // And document 02's, request 3; dates are out of order where one is before the one to its left.
    NoSuchDay = 10,
    DatesOutOfOrder = 11,
    // And request 7; also where a change would leave a total out of its limits.
    NoSuchWall = 12,
}

impl From<Reason> for u32 {
    ghost from_gives = { λ reason number. number ≡ number_of reason };

    fn from(reason: Reason) -> u32 {
        reason as u32
    }
}

// Why and where: row and column count from 1, and are 0 where the refusal has no place, as document 01 tells
// it: an `Option` would be taken apart again wherever one is told.
#[derive(Clone, Copy, Debug, PartialEq, Eq)]
pub struct Refusal {
    pub reason: Reason,
    pub row: u32,
    pub column: u32,
}

impl Refusal {
    pub fn without_place(reason: Reason) -> Self
        ensures { result ≡ without_place reason }
    {
        Refusal {
            reason,
            row: 0,
            column: 0,
        }
    }
}

// The row of the one line that a refused sheet gets.
impl From<Refusal> for [u32; ROW] {
    ghost from_gives = { λ refusal row. row ≡ refusal_row (number_of refusal.reason) refusal.row refusal.column };

    fn from(refusal: Refusal) -> [u32; ROW] {
        let number = u32::from(refusal.reason);
        [0, number, refusal.row, refusal.column, 0, 0, 0, 0]
    }
}

// Document 01: "Each answer is either the count or a refusal with row and column". The count is of rows
// where a sheet is read or a table judged, of bytes where a table is written.
pub type Answer = Result<u32, Refusal>;
