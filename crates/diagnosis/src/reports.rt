// A table's report, in the sheet's own columns.
ghost use Rattle.std.specs.List.{flat_map};
ghost use Rattle.std.specs.Prelude.{take, ◌≡◌, ◌≤◌, ◌<◌, ◌*◌, length};
ghost use Rattle.answer.specs.Told.{told};
ghost use Rattle.answer.specs.Lists.{over};
ghost use Rattle.method.specs.Held.{most_held};
ghost use Rattle.method.specs.Required.{most_required};
ghost use Rattle.diagnosis.specs.Report.{result_row, verdict_row, reporting, after_reporting};
ghost use Rattle.diagnosis.specs.Internal.{direction_number, lines_by, rows_by, reporting_by, after_reporting_by};

use crate::accepted::{AcceptedTable, Direction};
use crate::assessment::{Assessment, HouseAssessment};
use answer::{Answer, ROW, Reason, Refusal};
use method::{Fraction, verdict};
use sheet::{LINE, print_rows};
use survey::RowKind;

// 0.01 kN in the units of held and of required strength.
const HELD_UNIT: u64 = 10_000;

const REQUIRED_UNIT: u64 = 10_000_000;

// The lines of the longest report: two for each of three storeys, and the verdict's.
const MOST_LINES: usize = 7;

// Its bytes, for callers that lend as many as any report needs.
pub const MOST_REPORT_BYTES: usize = LINE * MOST_LINES;

// The directions, as a storey's places have them.
const DIRECTIONS: [Direction; 2] = [Direction::X, Direction::Y];

// The row of a storey and direction, by what is worked out for it and the deterioration factor.
fn result_row(storey: u32, direction: Direction, found: Assessment, factor: Fraction) -> [u32; ROW]
    requires { (found.held ≤ most_held) × (found.required ≤ most_required) × (0 < factor.lower) }
    ensures { result ≡ result_row storey (direction_number direction) found factor }
{
    let held = found.held / HELD_UNIT;
    let required = found.required.div_ceil(REQUIRED_UNIT);
    let deterioration = 100 * u32::from(factor.upper) / u32::from(factor.lower);
    [
        RowKind::Result as u32,
        storey,
        direction as u32,
        held as u32,
        required as u32,
        u32::from(found.layout),
        deterioration,
        found.score,
    ]
}

// The row of the verdict, by the least score.
fn verdict_row(least: u32) -> [u32; ROW]
    ensures { result ≡ verdict_row least }
{
    let number = u32::from(verdict(least));
    [RowKind::Verdict as u32, number, least, 0, 0, 0, 0, 0]
}

impl HouseAssessment {
    // The report's rows, at the front of as many as the longest report has: that of every storey and
    // direction, and then the verdict's.
    fn rows(&self) -> [[u32; ROW]; MOST_LINES]
        ensures { flat_map (λ row. row) (take (lines_by self.now) result) ≡ rows_by self.now }
    {
        let count = self.count as usize;
        let mut rows = [[0u32; ROW]; MOST_LINES];
        for (at, found) in self.places[..count].iter().enumerate() {
            let storey = at as u32 / 2 + 1;
            rows[at] = result_row(storey, DIRECTIONS[at % 2], *found, self.factor);
        }
        rows[count] = verdict_row(self.least);
        rows
    }

    // Writes the report into lent bytes, where they have room for it: its rows are filled with numbers
    // first, and then printed.
    #[tactic(auto, using(std::proofs::lemmas::Bool::Decides::nat_tests, crate::proofs::ReportRows::rows_printed), unfolding(crate::specs::Internal::reporting_by, crate::specs::Internal::after_reporting_by))]
    fn report(&self, report: &mut [u8]) -> Answer
        ensures answer { told result ≡ reporting_by self.now (length report.old) }
        ensures report { report.new ≡ after_reporting_by self.now report.old }
    {
        let lines = self.count as usize + 1;
        let length = LINE * lines;
        if report.len() < length {
            return Err(Refusal::without_place(Reason::LentSpaceShort));
        }
        print_rows(self.rows()[..lines].as_flattened(), report);
        Ok(length as u32)
    }
}

// Writes any table's report into lent bytes: the count of bytes written, or the refusal. Bytes after
// them stay, and a refusal changes none.
pub fn report(table: &[u32], report: &mut [u8]) -> Answer
    ensures answer { told result ≡ reporting table.now (length report.old) }
    ensures report { report.new ≡ after_reporting table.now report.old }
{
    AcceptedTable::judged(table)?.assess(None).report(report)
}
