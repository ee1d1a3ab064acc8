// The changes over the caller's own record, which is lent by `&mut` (document 01, "The shape of some places":
// "Small totals struct lent by &mut; few thin functions over the by-value core"). Each has a change made, and
// stores the record after it where it was accepted.
ghost use Rattle.std.specs.Prelude.{◌≡◌};
ghost use Rattle.diagnosis.specs.Answers.{told_scoring};
ghost use Rattle.site.specs.Changes.{on, starting, after_starting, adding, after_adding, deleting, after_deleting};

use crate::changes;
use crate::totals::Totals;
use answer::{ROW, Refusal};
use diagnosis::Record;

// Starts from a table, of which so many rows are in use as the caller has set in its record: fills in every sum,
// and answers the scores, or the refusal. A refusal changes nothing.
pub fn start(totals: &mut Totals, table: &[u32]) -> Result<Record, Refusal>
    ensures answer { told_scoring result ≡ starting (on table.now totals.old) }
    ensures totals { totals.new ≡ (after_starting (on table.now totals.old)).totals }
{
    let changed = changes::started(*totals, table)?;
    *totals = changed.totals;
    Ok(changed.answer)
}

// Adds a wall, by its eight numbers: the scores, or the refusal. The rows from its row on move down one. A refusal
// changes nothing.
pub fn add_wall(
    totals: &mut Totals,
    table: &mut [u32],
    wall: &[u32; ROW],
) -> Result<Record, Refusal>
    ensures answer { told_scoring result ≡ adding (on table.old totals.old) wall.now }
    ensures table { table.new ≡ (after_adding (on table.old totals.old) wall.now).table }
    ensures totals { totals.new ≡ (after_adding (on table.old totals.old) wall.now).totals }
{
    let changed = changes::with_wall(*totals, table, wall)?;
    *totals = changed.totals;
    Ok(changed.answer)
}

// Deletes a wall, by its row, which counts from 1: the scores, or the refusal. The rows after it move up one, and the
// last row in use is set to 0. A refusal changes nothing.
pub fn delete_wall(totals: &mut Totals, table: &mut [u32], row: u32) -> Result<Record, Refusal>
    ensures answer { told_scoring result ≡ deleting (on table.old totals.old) row }
    ensures table { table.new ≡ (after_deleting (on table.old totals.old) row).table }
    ensures totals { totals.new ≡ (after_deleting (on table.old totals.old) row).totals }
{
    let changed = changes::without_wall(*totals, table, row)?;
    *totals = changed.totals;
    Ok(changed.answer)
}
