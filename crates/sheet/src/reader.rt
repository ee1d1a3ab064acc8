// A sheet read into a lent table.
ghost use Rattle.std.specs.Prelude.{◌≡◌, ◌<◌, ◌≤◌, ◌*◌, ◌/◌, Ok, length};
ghost use Rattle.answer.specs.Told.{told};
ghost use Rattle.answer.specs.Length.{most_rows, rows_in};
ghost use Rattle.answer.specs.Lists.{over};
ghost use Rattle.sheet.specs.Sheet.{line_read, with_numbers, lines_read, numbers_of, reading, after_reading};

use crate::field::{FIELD_WIDTH, scan};
use crate::line::{LAST_BYTE, LINE, ROW};
use crate::refusal_at;
use answer::{Answer, MOST_NUMBERS, Reason, Refusal, rows_in};

// The ninth place of a line, from 0: its last byte, after the eight fields.
const LAST_PLACE: usize = ROW;

// The most lines of a short sheet. A house of two storeys with 55 walls has as many.
const SHORT_SHEET: usize = 64;
// The numbers of the longest short sheet.
const SHORT_NUMBERS: usize = ROW * SHORT_SHEET;

// Reads the line at a row into the eight numbers that are lent, or answers the refusal of its leftmost misprint.
// They are filled in place: an array that is answered by value takes half as long again.
fn read_line(line: &[u8; LINE], row: usize, numbers: &mut [u32]) -> Result<(), Refusal>
    requires row { row < most_rows }
    requires numbers { length numbers.old ≡ 8 }
    ensures { with_numbers result numbers.new ≡ line_read row line.now }
{
    let (fields, _) = line.as_chunks::<FIELD_WIDTH>();
    for (column, field) in fields.iter().enumerate() {
        let Some(number) = scan(field) else {
            return Err(refusal_at(Reason::Misprint, row, column));
        };
        numbers[column] = number;
    }
    if line[LAST_BYTE] != b'\n' {
        return Err(refusal_at(Reason::Misprint, row, LAST_PLACE));
    }
    Ok(())
}

// Reads the whole lines of a sheet over the front of `numbers`, as far as the first misprint. Answers how
// many lines there are, or the misprint's refusal. Numbers are written by their place (as in writer.rt).
fn read_lines(sheet: &[u8], numbers: &mut [u32]) -> Result<usize, Refusal>
    requires lines { length sheet.now / 65 ≤ most_rows }
    requires numbers { 8 * (length sheet.now / 65) ≤ length numbers.old }
    ensures answer { told result ≡ lines_read sheet.now (length sheet.now / 65) }
    ensures numbers { result ≡ Ok (length sheet.now / 65)
        → numbers.new ≡ over numbers.old (numbers_of (8 * (length sheet.now / 65)) sheet.now) }
{
    let (lines, _) = sheet.as_chunks::<LINE>();
    for (row, line) in lines.iter().enumerate() {
        let to = ROW * row;
        read_line(line, row, &mut numbers[to..to + ROW])?;
    }
    Ok(lines.len())
}

// Copies numbers over the front of a table. The library's method compares the two places as numbers, and the
// archive for WebAssembly, where addresses are narrower, has none of them.
fn put_numbers(numbers: &[u32], table: &mut [u32])
    requires { length numbers.now ≤ length table.old }
    ensures { table.new ≡ over table.old numbers.now }
{
    for (at, &number) in numbers.iter().enumerate() {
        table[at] = number;
    }
}

// Reads a sheet by way of room for so many numbers, and copies them into the lent table only where every
// line could be read, since a refusal changes none of the table.
fn read_with<const ROOM: usize>(sheet: &[u8], table: &mut [u32]) -> Answer
    requires lines { 0 < rows_in 65 (length sheet.now) }
    requires room { (8 * rows_in 65 (length sheet.now) ≤ ROOM) × (ROOM ≤ 8 * most_rows) }
    requires table { 8 * rows_in 65 (length sheet.now) ≤ length table.old }
    ensures answer { told result ≡ reading sheet.now (length table.old) }
    ensures table { table.new ≡ after_reading sheet.now table.old }
{
    let mut numbers = [0u32; ROOM];
    let lines = read_lines(sheet, &mut numbers)?;
    put_numbers(&numbers[..ROW * lines], table);
    Ok(lines as u32)
}

// Reads a sheet into a lent table: the count of rows written, or the refusal. Numbers after them
// stay, and a refusal changes none. Room for the numbers read is cleared at every call, which takes time,
// so a short sheet is given less of it.
pub fn read(sheet: &[u8], table: &mut [u32]) -> Answer
    ensures answer { told result ≡ reading sheet.now (length table.old) }
    ensures table { table.new ≡ after_reading sheet.now table.old }
{
    let lines = rows_in(sheet.len(), LINE)?;
    let lent = table.len();
    if lent < ROW * lines {
        return Err(Refusal::without_place(Reason::LentSpaceShort));
    }
    if lines <= SHORT_SHEET {
        return read_with::<SHORT_NUMBERS>(sheet, table);
    }
    read_with::<MOST_NUMBERS>(sheet, table)
}
