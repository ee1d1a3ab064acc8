// The tests of a change, and what it does: the row at which a wall is put in or taken out, and the totals
// afterwards.
ghost use Rattle.std.specs.Prelude.{◌≡◌, ◌≤◌, ◌-◌, IfOk, IfErr, Err, true};
ghost use Rattle.answer.specs.Told.{told, accepts};
ghost use Rattle.site.specs.Rows.{in_use, row_due};
ghost use Rattle.site.specs.Totals.{total_added, total_taken};
ghost use Rattle.site.specs.Changes.{on, checking, row_taken, addition, deletion};
ghost use Rattle.site.specs.Internal.{InStoreys, moved, wall_row};

use crate::totals::{Totals, place_of, some_above};
use answer::{MOST_WALLS, ROW, Reason, Refusal};
use diagnosis::AcceptedTable;
use survey::columns::{KIND, STOREY};
use survey::{RowKind, cell, new_wall_column};

// A change that passes its tests.
#[derive(Clone, Copy, Debug, PartialEq, Eq)]
pub struct Plan {
    // The row, from 0, at which a wall is put in or taken out.
    pub at: usize,
    // The totals afterwards.
    pub held: [u64; 6],
}

// The rows in use, which are checked as scoring does.
pub(crate) fn checked(totals: Totals, table: &[u32]) -> Result<AcceptedTable<'_>, Refusal>
    ensures accepted { IfOk result (λ rows. (accepts (checking (on table.now totals)) ≡ true) × (rows.table.now ≡ in_use table.now totals.rows)) }
    ensures refused { IfErr result (λ refused. told (Err refused) ≡ checking (on table.now totals)) }
{
    let numbers = ROW * totals.rows as usize;
    if table.len() < numbers {
        return Err(Refusal::without_place(Reason::SheetLength));
    }
    AcceptedTable::judged(&table[..numbers])
}

// Six totals with another for a wall's storey and direction, where there is another and then no total of the
// house, which has so many storeys, is above 60,000 kN.
fn moved(held: [u64; 6], wall: &[u32; ROW], total: Option<u64>, storeys: u32) -> Option<[u64; 6]>
    requires wall { InStoreys wall.now storeys }
    requires few { storeys ≤ 3 }
    ensures { result ≡ moved held wall.now storeys total }
{
    let mut after = held;
    after[place_of(wall)] = total?;
    if some_above(after, storeys) {
        return None;
    }
    Some(after)
}

// The row, from 0, that a new wall of a storey takes: that of the first wall of a storey above, if any.
fn row_due(rows: &AcceptedTable<'_>, storey: u32) -> usize
    ensures { result ≡ row_due rows.now.table.now storey }
{
    let first = rows.first_wall();
    let walls = rows.parts_row() - first;
    let before = (first..first + walls)
        .position(|row| storey < cell(rows.table, row, STOREY))
        .unwrap_or(walls);
    first + before
}

// The tests of an addition, where so many numbers are lent.
pub(crate) fn plan_addition(
    rows: &AcceptedTable<'_>,
    held: [u64; 6],
    lent: usize,
    wall: &[u32; ROW],
) -> Result<Plan, Refusal>
    ensures planned { IfOk result (λ plan. (accepts (addition rows.now.table.now held lent wall.now) ≡ true)
        × (plan.at ≡ row_taken rows.now.table.now wall.now) × (plan.held ≡ total_added rows.now.table.now held wall.now)) }
    ensures refused { IfErr result (λ refused. told (Err refused) ≡ addition rows.now.table.now held lent wall.now) }
{
    let at = row_due(rows, wall[STOREY]);
    let row = at as u32 + 1;
    if let Some(column) = new_wall_column(wall, rows.house.storeys) {
        return Err(Refusal {
            reason: Reason::OutOfRange,
            row,
            column: column as u32 + 1,
        });
    }
    if rows.first_wall() + MOST_WALLS <= rows.parts_row() {
        return Err(Refusal {
            reason: Reason::TooManyWalls,
            row,
            column: 1,
        });
    }
    if lent < ROW * (rows.rows + 1) {
        return Err(Refusal::without_place(Reason::LentSpaceShort));
    }
    let total = held[place_of(wall)].checked_add(rows.share(wall));
    match moved(held, wall, total, rows.house.storeys) {
        Some(held) => Ok(Plan { at, held }),
        None => Err(Refusal::without_place(Reason::NoSuchWall)),
    }
}

// The row, from 0, of the wall that stands in a row, which counts from 1; none where no wall stands there.
fn wall_row(rows: &AcceptedTable<'_>, row: u32) -> Option<usize>
    ensures { result ≡ wall_row rows.now.table.now row }
{
    let at = (row as usize).checked_sub(1)?;
    if cell(rows.table, at, KIND) != RowKind::Wall as u32 {
        return None;
    }
    Some(at)
}

// The tests of a deletion.
pub(crate) fn plan_deletion(
    rows: &AcceptedTable<'_>,
    held: [u64; 6],
    row: u32,
) -> Result<Plan, Refusal>
    ensures planned { IfOk result (λ plan. (accepts (deletion rows.now.table.now held row) ≡ true)
        × (plan.at ≡ row - 1) × (plan.held ≡ total_taken rows.now.table.now held (row - 1))) }
    ensures refused { IfErr result (λ refused. told (Err refused) ≡ deletion rows.now.table.now held row) }
{
    let Some(at) = wall_row(rows, row) else {
        return Err(Refusal {
            reason: Reason::NoSuchWall,
            row,
            column: 0,
        });
    };
    let (all, _) = rows.table.as_chunks::<ROW>();
    let wall = &all[at];
    let total = held[place_of(wall)].checked_sub(rows.share(wall));
    match moved(held, wall, total, rows.house.storeys) {
        Some(held) => Ok(Plan { at, held }),
        None => Err(Refusal::without_place(Reason::NoSuchWall)),
    }
}
