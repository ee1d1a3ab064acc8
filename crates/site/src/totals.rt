// The caller's own record: running totals, and how many rows are in use.
ghost use Rattle.std.specs.Prelude.{◌≡◌, ◌≤◌};
ghost use Rattle.survey.specs.Table.{cell};
ghost use Rattle.diagnosis.specs.Answers.{score_at};
ghost use Rattle.site.specs.Totals.{some_above};
ghost use Rattle.site.specs.Internal.{InStoreys};

use answer::ROW;
use method::MOST_HELD;
use survey::columns::{DIRECTION, STOREY};

// Document 02, request 7: "one held strength for each storey and direction", in the order of a record's scores;
// it "also counts the rows in use". The caller sets that count, and lends the record by `&mut`.
#[repr(C)]
#[derive(Clone, Copy, Debug, PartialEq, Eq, Default)]
pub struct Totals {
    pub held: [u64; 6],
    pub rows: u32,
}

// Where six totals have that of a wall's storey and direction.
pub(crate) fn place_of(wall: &[u32; ROW]) -> usize
    requires { InStoreys wall.now 3 }
    ensures { result ≡ score_at (cell wall.now 0 1) (cell wall.now 0 2) }
{
    2 * (wall[STOREY] as usize - 1) + (wall[DIRECTION] as usize - 1)
}

// Whether a total of a house of so many storeys is above 60,000 kN. (`any` has an `Option` of a place within, which
// has another layout in WebAssembly.)
#[tactic(auto, unfolding(crate::specs::Totals::some_above))]
pub(crate) fn some_above(held: [u64; 6], storeys: u32) -> bool
    requires { storeys ≤ 3 }
    ensures { result ≡ some_above storeys held }
{
    let count = 2 * storeys as usize;
    for &total in &held[..count] {
        if MOST_HELD < total {
            return true;
        }
    }
    false
}
