// The whole program on slices: from a sheet's bytes to its report's, or to the refusal.
ghost use Rattle.std.specs.Prelude.{◌≡◌, ◌≤◌, length, take};
ghost use Rattle.answer.specs.Told.{told};
ghost use Rattle.diagnosis.specs.Program.{diagnosing, after_diagnosing, most_report_bytes, output, output_bytes};

use crate::reports;
use crate::reports::MOST_REPORT_BYTES;
use answer::{Answer, MOST_NUMBERS, ROW};
use sheet::{LINE, print_rows, read};

// What the scoring program prints for a sheet. Its bytes are an array with a length beside them, since
// nothing is allocated.
#[derive(Clone, Copy, Debug, PartialEq, Eq)]
pub struct ProgramOutput {
    // The count of the report's bytes, or the refusal.
    pub answer: Answer,
    // What is printed stands at the front, and the bytes after it are 0.
    pub bytes: [u8; MOST_REPORT_BYTES],
    // How many bytes are printed.
    pub length: usize,
    pub ghost within: { length ≤ most_report_bytes },
}

impl ProgramOutput {
    // What is printed.
    pub fn printed(&self) -> &[u8]
        ensures { result.now ≡ take self.now.length self.now.bytes }
    {
        &self.bytes[..self.length]
    }
}

// Diagnoses any sheet, and writes its report into lent bytes: the count of bytes written, or the
// refusal of reading or judging, or 9. Bytes after them stay, and a refusal changes none.
pub fn diagnose(sheet: &[u8], report: &mut [u8]) -> Answer
    ensures answer { told result ≡ diagnosing sheet.now (length report.old) }
    ensures report { report.new ≡ after_diagnosing sheet.now report.old }
{
    let mut table = [0u32; MOST_NUMBERS];
    let rows = read(sheet, &mut table)?;
    let numbers = ROW * rows as usize;
    reports::report(&table[..numbers], report)
}

// What the scoring program prints for any sheet: its report, or the line of its refusal alone.
pub fn output_of(sheet: &[u8]) -> ProgramOutput
    ensures answer { told result.answer ≡ diagnosing sheet.now most_report_bytes }
    ensures bytes { result.bytes ≡ output_bytes sheet.now }
    ensures length { result.length ≡ length (output sheet.now) }
    ensures printed { take result.length result.bytes ≡ output sheet.now }
{
    let mut bytes = [0u8; MOST_REPORT_BYTES];
    let answer = diagnose(sheet, &mut bytes);
    let length = match answer {
        Ok(count) => count as usize,
        Err(refusal) => {
            print_rows(&<[u32; ROW]>::from(refusal), &mut bytes);
            LINE
        }
    };
    ProgramOutput {
        answer,
        bytes,
        length,
    }
}
