// Each change made: the record after it, by value, and what scoring answers.
ghost use Rattle.std.specs.Prelude.{◌≡◌, ◌≤◌, ◌*◌, IfOk, IfErr, Err, true, false, length};
ghost use Rattle.answer.specs.Told.{told, accepts};
ghost use Rattle.survey.specs.Table.{storeys, rows_due};
ghost use Rattle.diagnosis.specs.Answers.{told_record, number_at, record_with};
ghost use Rattle.diagnosis.specs.Premises.{HouseOf};
ghost use Rattle.site.specs.Rows.{in_use};
ghost use Rattle.site.specs.Totals.{some_above};
ghost use Rattle.site.specs.Changes.{on, rows_of, checking, started, add_told, with_wall, delete_told, without_wall};
ghost use Rattle.site.specs.Internal.{Made};

use crate::moves::{insert, remove};
use crate::plans::{checked, plan_addition, plan_deletion};
use crate::totals::Totals;
use answer::{ROW, Refusal};
use diagnosis::{AcceptedTable, Record};
use method::House;

// A change that was accepted: the caller's record after it, and the record of the scores.
#[derive(Clone, Copy, Debug, PartialEq, Eq)]
pub struct Changed {
    pub totals: Totals,
    pub answer: Record,
}

// What a change has made of a table, whose first rows are a house's. They are not judged again: the tests of the
// change see to it that they are accepted.
fn scored(table: &[u32], house: House, rows: usize, held: [u64; 6]) -> Changed
    requires fits { 8 * rows ≤ length table.now }
    requires house { HouseOf (in_use table.now rows) house }
    requires rows { rows ≡ rows_due (in_use table.now rows) }
    requires within { some_above (storeys (in_use table.now rows)) held ≡ false }
    ensures { Made result (on table.now (record { held = held; rows = rows })) }
{
    let accepted = AcceptedTable {
        table: &table[..ROW * rows],
        house,
        rows,
    };
    Changed {
        totals: Totals {
            held,
            rows: rows as u32,
        },
        answer: accepted.record_with(held),
    }
}

// Starts: every sum is filled in.
pub(crate) fn started(totals: Totals, table: &[u32]) -> Result<Changed, Refusal>
    ensures made { IfOk result (λ changed. (accepts (checking (on table.now totals)) ≡ true) × Made changed (started (on table.now totals))) }
    ensures refused { IfErr result (λ refused. told (Err refused) ≡ checking (on table.now totals)) }
{
    let own = checked(totals, table)?.own_record();
    let held = own.held;
    let rows = totals.rows;
    Ok(Changed {
        totals: Totals { held, rows },
        answer: own.scored,
    })
}

// Adds a wall.
pub(crate) fn with_wall(
    totals: Totals,
    table: &mut [u32],
    wall: &[u32; ROW],
) -> Result<Changed, Refusal>
    ensures made { IfOk result (λ changed. (accepts (add_told (on table.old totals) wall.now) ≡ true)
        × (table.new ≡ (with_wall (on table.old totals) wall.now).table) × Made changed (with_wall (on table.old totals) wall.now)) }
    ensures refused { IfErr result (λ refused. (told (Err refused) ≡ add_told (on table.old totals) wall.now) × (table.new ≡ table.old)) }
{
    let rows = checked(totals, table)?;
    let plan = plan_addition(&rows, totals.held, table.len(), wall)?;
    let house = rows.house;
    let count = rows.rows;
    insert(table, plan.at, count, wall);
    Ok(scored(table, house, count + 1, plan.held))
}

// Deletes a wall, by its row from 1.
pub(crate) fn without_wall(totals: Totals, table: &mut [u32], row: u32) -> Result<Changed, Refusal>
    ensures made { IfOk result (λ changed. (accepts (delete_told (on table.old totals) row) ≡ true)
        × (table.new ≡ (without_wall (on table.old totals) row).table) × Made changed (without_wall (on table.old totals) row)) }
    ensures refused { IfErr result (λ refused. (told (Err refused) ≡ delete_told (on table.old totals) row) × (table.new ≡ table.old)) }
{
    let rows = checked(totals, table)?;
    let plan = plan_deletion(&rows, totals.held, row)?;
    let house = rows.house;
    let count = rows.rows;
    remove(table, plan.at, count);
    Ok(scored(table, house, count - 1, plan.held))
}
