// The functions that a host program calls, from C or Rust, and nothing else.
//
// Uses `answer`, `sheet`, `method`, `diagnosis` and `site`. Document 01: "The host program on the phone calls it with
// numbers and byte slices and must get the same answers." A slice crosses as a pointer and its length in
// elements, an answer as a struct of numbers by value: an enum or an Option cannot cross, and an array has
// its count beside it. The definitions that tie these structs to the paper's values stand in
// specs/Host.antt; include/girderbasil.h is the same interface for C, and its fields are these.
#![tactic(auto)]

ghost use Rattle.std.specs.Prelude.{◌≡◌, length};
ghost use Rattle.answer.specs.Told.{told};
ghost use Rattle.sheet.specs.Sheet.{reading, after_reading};
ghost use Rattle.diagnosis.specs.Answers.{told_scoring, scoring};
ghost use Rattle.diagnosis.specs.Report.{reporting, after_reporting};
ghost use Rattle.site.specs.Changes.{on, starting, after_starting, adding, after_adding, deleting, after_deleting};
ghost use Rattle.girderbasil.specs.Host.{told_host, host_numbers, told_host_scoring, host_output, printed_for};

use answer::{Answer, ROW, Refusal};
use diagnosis::{MOST_REPORT_BYTES, ProgramOutput, Record};
use site::Totals;

// Every answer begins with the same three fields, so that a host reads any refusal in one way.

// A count or a refusal: `number` is 0 where it is a count.
#[repr(C)]
#[derive(Clone, Copy, Debug, PartialEq, Eq)]
pub struct HostAnswer {
    pub number: u32,
    pub row: u32,
    pub column: u32,
    pub count: u32,
}

// A record or a refusal: `number` is 0 where the table is scored, and else the record is all 0.
#[repr(C)]
#[derive(Clone, Copy, Debug, PartialEq, Eq, Default)]
pub struct HostScoring {
    pub number: u32,
    pub row: u32,
    pub column: u32,
    pub scores: [u32; 6],
    pub count: u32,
    pub verdict: u32,
    // 1 where work on the house started by 31 May 1981, the grant's last day; else 0.
    pub started_by_31_may_1981: u32,
    // Beside each score, before its limit of 999: the whole hundredths, the remainder and the divisor. The
    // fields of 32 bits come first, so that nothing is padded.
    pub hundredths: [u64; 6],
    pub remainders: [u64; 6],
    pub divisors: [u64; 6],
}

// What the scoring program prints for a sheet: `number` is 0 where that is the report, and else it is the
// line of the refusal.
#[repr(C)]
#[derive(Clone, Copy, Debug, PartialEq, Eq)]
pub struct HostOutput {
    pub number: u32,
    pub row: u32,
    pub column: u32,
    // How many bytes are printed; those after them are 0.
    pub count: u32,
    pub bytes: [u8; MOST_REPORT_BYTES],
}

impl From<Answer> for HostAnswer {
    ghost from_gives = { λ answer host. host ≡ host_numbers (told answer) };

    fn from(answer: Answer) -> Self {
        match answer {
            Ok(count) => HostAnswer {
                number: 0,
                row: 0,
                column: 0,
                count,
            },
            Err(refusal) => HostAnswer {
                number: refusal.reason.into(),
                row: refusal.row,
                column: refusal.column,
                count: 0,
            },
        }
    }
}

// The number of a table that is scored, which no refusal has.
const SCORED: u32 = 0;

impl From<Result<Record, Refusal>> for HostScoring {
    ghost from_gives = { λ scored host. told_host_scoring host ≡ told_scoring scored };

    fn from(scored: Result<Record, Refusal>) -> Self {
        match scored {
            Ok(found) => {
                let scores = found.scores;
                let quotients = found.quotients;
                let hundredths = quotients.map(|quotient| quotient.hundredths);
                let remainders = quotients.map(|quotient| quotient.remainder);
                let divisors = quotients.map(|quotient| quotient.divisor);
                HostScoring {
                    number: SCORED,
                    scores,
                    count: found.count,
                    verdict: found.verdict.into(),
                    started_by_31_may_1981: found.started_by_31_may_1981.into(),
                    hundredths,
                    remainders,
                    divisors,
                    ..HostScoring::default()
                }
            }
            Err(refused) => HostScoring {
                number: refused.reason.into(),
                row: refused.row,
                column: refused.column,
                ..HostScoring::default()
            },
        }
    }
}

impl From<ProgramOutput> for HostOutput {
    ghost from_gives = { λ printed host. host ≡ host_output (told printed.answer) printed.length printed.bytes };

    fn from(printed: ProgramOutput) -> Self {
        let tells = HostAnswer::from(printed.answer);
        let bytes = printed.bytes;
        HostOutput {
            number: tells.number,
            row: tells.row,
            column: tells.column,
            count: printed.length as u32,
            bytes,
        }
    }
}

// Reads a sheet into a lent table: the count of rows written, or the refusal. Later numbers stay, and a
// refusal changes none.
#[unsafe(no_mangle)]
pub extern "C" fn girderbasil_read(sheet: &[u8], table: &mut [u32]) -> HostAnswer
    ensures answer { told_host result ≡ reading sheet.now (length table.old) }
    ensures table { table.new ≡ after_reading sheet.now table.old }
{
    sheet::read(sheet, table).into()
}

// Scores a table: its record, or the refusal.
#[unsafe(no_mangle)]
pub extern "C" fn girderbasil_score(table: &[u32]) -> HostScoring
    ensures { told_host_scoring result ≡ scoring table.now }
{
    diagnosis::score(table).into()
}

// Writes a table's report into lent bytes: the count of bytes written, or the refusal. Later bytes stay,
// and a refusal changes none.
#[unsafe(no_mangle)]
pub extern "C" fn girderbasil_write_report(table: &[u32], report: &mut [u8]) -> HostAnswer
    ensures answer { told_host result ≡ reporting table.now (length report.old) }
    ensures report { report.new ≡ after_reporting table.now report.old }
{
    diagnosis::report(table, report).into()
}

// What the scoring program prints for a sheet: its report, or the line of its refusal alone. The host
// lends no storage for it: the bytes are in the answer.
#[unsafe(no_mangle)]
pub extern "C" fn girderbasil_diagnose(sheet: &[u8]) -> HostOutput
    ensures { result ≡ printed_for sheet.now }
{
    diagnosis::output_of(sheet).into()
}

// The three functions for changes on site. The host lends its own record, `site`'s `Totals`, by a pointer, and a
// wall's eight numbers by another.

// Starts from a table, of which so many rows are in use as the record says: fills in every sum, and answers the
// scores, or the refusal. A refusal changes nothing.
#[unsafe(no_mangle)]
pub extern "C" fn girderbasil_start(totals: &mut Totals, table: &[u32]) -> HostScoring
    ensures answer { told_host_scoring result ≡ starting (on table.now totals.old) }
    ensures totals { totals.new ≡ (after_starting (on table.now totals.old)).totals }
{
    site::start(totals, table).into()
}

// Adds a wall: the scores, or the refusal. The rows from its row on move down one. A refusal changes nothing.
#[unsafe(no_mangle)]
pub extern "C" fn girderbasil_add_wall(
    totals: &mut Totals,
    table: &mut [u32],
    wall: &[u32; ROW],
) -> HostScoring
    ensures answer { told_host_scoring result ≡ adding (on table.old totals.old) wall.now }
    ensures table { table.new ≡ (after_adding (on table.old totals.old) wall.now).table }
    ensures totals { totals.new ≡ (after_adding (on table.old totals.old) wall.now).totals }
{
    site::add_wall(totals, table, wall).into()
}

// Deletes a wall, by its row, which counts from 1: the scores, or the refusal. The rows after it move up one, and
// the last row in use is set to 0. A refusal changes nothing.
#[unsafe(no_mangle)]
pub extern "C" fn girderbasil_delete_wall(
    totals: &mut Totals,
    table: &mut [u32],
    row: u32,
) -> HostScoring
    ensures answer { told_host_scoring result ≡ deleting (on table.old totals.old) row }
    ensures table { table.new ≡ (after_deleting (on table.old totals.old) row).table }
    ensures totals { totals.new ≡ (after_deleting (on table.old totals.old) row).totals }
{
    site::delete_wall(totals, table, row).into()
}
