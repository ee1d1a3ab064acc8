// A table written as a sheet.
ghost use Rattle.std.specs.Prelude.{◌≡◌, length};
ghost use Rattle.answer.specs.Told.{told};
ghost use Rattle.sheet.specs.Sheet.{large_place, after_printing, writing, after_writing};

use crate::line::{LINE, ROW, print_row};
use crate::refusal_at;
use answer::{Answer, Reason, Refusal, rows_in};

// The largest number that eight characters hold.
const LARGEST: u32 = 99_999_999;

// The first place of a number too large for a field, from the top and from the left.
fn first_too_large(table: &[u32]) -> Option<usize>
    ensures { result ≡ large_place table.now }
{
    table.iter().position(|&number| LARGEST < number)
}

// Prints a table's whole rows over the front of the bytes, a line a row, where they have room for
// all of them; else no byte changes. Of a number over 99,999,999 the last eight digits are printed. Lines are
// written by their place, since the library says nothing of bytes after mutable chunks of them were lent.
pub fn print_rows(table: &[u32], sheet: &mut [u8])
    ensures { sheet.new ≡ after_printing table.now sheet.old }
{
    let (rows, _) = table.as_chunks::<ROW>();
    if sheet.len() / LINE < rows.len() {
        return;
    }
    for (row, numbers) in rows.iter().enumerate() {
        let to = LINE * row;
        print_row(numbers, &mut sheet[to..to + LINE]);
    }
}

// Writes a table into lent bytes as a sheet: the count of bytes written, or the refusal. Bytes
// after them stay, and a refusal changes none.
pub fn write(table: &[u32], sheet: &mut [u8]) -> Answer
    ensures answer { told result ≡ writing table.now (length sheet.old) }
    ensures sheet { sheet.new ≡ after_writing table.now sheet.old }
{
    let rows = rows_in(table.len(), ROW)?;
    if let Some(at) = first_too_large(table) {
        return Err(refusal_at(Reason::OutOfRange, at / ROW, at % ROW));
    }
    if sheet.len() < LINE * rows {
        return Err(Refusal::without_place(Reason::LentSpaceShort));
    }
    print_rows(table, sheet);
    Ok((LINE * rows) as u32)
}
