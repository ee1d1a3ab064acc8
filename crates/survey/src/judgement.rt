// A table judged: the count of its rows, or the refusal. Its rows are gone through once, from the top: first
// the rows before the walls, of which the house's row says how many there are; then the walls, which end at
// the first row of another kind; then the parts row, and the dates row, which is the last.
ghost use Rattle.std.specs.Prelude.{◌≡◌, ◌≤◌, ◌+◌, Err, IfOk, IfErr};
ghost use Rattle.answer.specs.declared.refusal.Reason.TheVariants.{RowOutOfOrder};
ghost use Rattle.answer.specs.Told.{told, counted};
ghost use Rattle.survey.specs.Table.{first_wall, parts_row};
ghost use Rattle.survey.specs.Judgement.{judging};
ghost use Rattle.survey.specs.Internal.{JudgedTo};

use crate::columns::STOREYS;
use crate::row::{Row, Table};
use crate::table::cell;
use answer::{Answer, ROW, Reason, Refusal, rows_in};

// A table that is judged as far as a row has no type of its own: each step takes up at another row of the
// same table, and is called once.
impl<'a> Table<'a> {
    // The refusal of a row that is missing, or stands after the last that is due. (One that is missing is no
    // `Row`, so `Row::refused` can't make it.)
    fn out_of_order(&self, at: usize) -> Refusal
        requires { at ≤ self.now.rows }
        ensures { result ≡ record { reason = RowOutOfOrder; row = at + 1; column = 1 } }
    {
        Refusal {
            reason: Reason::RowOutOfOrder,
            row: at as u32 + 1,
            column: 1,
        }
    }

    // The row in a place, or the refusal of the first row that the table lacks.
    fn row(&self, at: usize) -> Result<Row<'a>, Refusal>
        requires { at ≤ self.now.rows }
        ensures row { IfOk result (λ row. (row.table ≡ self.now) × (row.at ≡ at)) }
        ensures missing { IfErr result (λ refusal. (at ≡ self.now.rows) × (refusal ≡ record { reason = RowOutOfOrder; row = at + 1; column = 1 })) }
    {
        if at == self.rows {
            return Err(self.out_of_order(at));
        }
        Ok(Row { table: *self, at })
    }

    // Tests the rows between the house's and the walls: the storeys', and the ends, two to a storey.
    #[tactic(auto, using(crate::proofs::Judging::row_passed, crate::proofs::RowFaults::row_storey, crate::proofs::RowFaults::row_ends))]
    fn check_storeys_and_ends(&self) -> Result<(), Refusal>
        requires { JudgedTo self.now.numbers.now self.now.rows 1 }
        ensures refused { IfErr result (λ refusal. told (Err refusal) ≡ judging self.now.numbers.now) }
        ensures judged { IfOk result (λ _. JudgedTo self.now.numbers.now self.now.rows (first_wall self.now.numbers.now)) }
    {
        for at in 1..self.first_ends() {
            let row = self.row(at)?;
            row.refused(row.check_storey())?;
        }
        for at in self.first_ends()..self.first_wall() {
            let row = self.row(at)?;
            row.refused(row.check_ends())?;
        }
        Ok(())
    }

    // Tests the walls, and answers the row after them, where the parts are due. Where they end is learned on
    // the way: a scan for the parts row up front would go through them twice. Inlined into `judge` and what
    // that is inlined into, the loop would share the registers with all that they do, and each wall would take a
    // fifth longer.
    #[inline(never)]
    #[tactic(auto, using(crate::proofs::Judging::fault_passed, crate::proofs::RowFaults::row_wall, crate::proofs::Positions::wall_before_parts, crate::proofs::Positions::parts_row_here))]
    fn check_walls(&self) -> Result<usize, Refusal>
        requires { JudgedTo self.now.numbers.now self.now.rows (first_wall self.now.numbers.now) }
        ensures refused { IfErr result (λ refusal. told (Err refusal) ≡ judging self.now.numbers.now) }
        ensures judged { IfOk result
            (λ parts. (parts ≡ parts_row self.now.numbers.now) × JudgedTo self.now.numbers.now self.now.rows parts) }
    {
        for at in self.first_wall()..self.rows {
            let row = Row { table: *self, at };
            if !row.is_wall() {
                return Ok(at);
            }
            row.refused(row.check_wall())?;
        }
        Ok(self.rows)
    }

    // Tests the parts row, which stands in the row `parts`, and the dates row, after which there is none.
    #[tactic(auto, using(crate::proofs::Judging::row_passed, crate::proofs::Judging::judging_accepted, crate::proofs::RowFaults::row_parts, crate::proofs::RowFaults::row_dates))]
    fn check_last_rows(&self, parts: usize) -> Result<(), Refusal>
        requires parts { parts ≡ parts_row self.now.numbers.now }
        requires judged { JudgedTo self.now.numbers.now self.now.rows parts }
        ensures refused { IfErr result (λ refusal. told (Err refusal) ≡ judging self.now.numbers.now) }
        ensures accepted { IfOk result (λ _. counted self.now.rows ≡ judging self.now.numbers.now) }
    {
        let row = self.row(parts)?;
        row.refused(row.check_parts())?;
        let dates = parts + 1;
        let row = self.row(dates)?;
        row.refused(row.check_dates())?;
        if dates + 1 < self.rows {
            return Err(self.out_of_order(dates + 1));
        }
        Ok(())
    }
}

// Judges any table: the count of its rows, or the refusal.
#[tactic(auto, using(answer::proofs::Lengths::refused_whole, answer::proofs::Lengths::counted_whole, crate::proofs::Judging::judging_length, crate::proofs::Judging::judging_begins, crate::proofs::Judging::fault_passed, crate::proofs::RowFaults::row_house))]
pub fn judge(table: &[u32]) -> Answer
    ensures { told result ≡ judging table.now }
{
    let rows = rows_in(table.len(), ROW)?;
    let table = Table {
        numbers: table,
        rows,
        storeys: cell(table, 0, STOREYS),
    };
    let house = Row { table, at: 0 };
    house.refused(house.check_house())?;
    table.check_storeys_and_ends()?;
    let parts = table.check_walls()?;
    table.check_last_rows(parts)?;
    Ok(rows as u32)
}
