// Runs the sheets that its arguments name: each is read and written again, and under its name stands
// the same sheet, or the refusal's line. After the word --lendings it prints for each sheet what is
// answered with more and less lent, and at the word --tables what the writer answers for tables that
// no sheet gives. `again` is proved to give the same sheet or the refusal; what comes from the disk and
// goes to the terminal is tested, against the file stdout.
//
// Uses `answer`, `files`, `sheet` and std. Of a sheet that can't be read it tells on standard error, and runs
// the next; where it can't print, it ends with status 1.
#![tactic(auto)]

ghost use Rattle.std.specs.Prelude.{◌≡◌, length};
ghost use Rattle.answer.specs.Told.{told};
ghost use Rattle.run_sheets.specs.Again.{again, after_again};

use answer::{Answer, MOST_NUMBERS};
use files::answer_row;
use std::io::Read;
use std::rt::Files;
use std::{env, fs, io};

// The numbers of a sheet that is a line longer than the longest, and its bytes.
const TABLE: usize = MOST_NUMBERS + sheet::ROW;

const BYTES: usize = (answer::MOST_ROWS + 1) * sheet::LINE;

// A longer file is cut there, at a length that is still refused.
const MOST_INPUT: u64 = 65_536;

// Reads a sheet into the table and writes the rows that were read into the bytes.
fn again(sheet: &[u8], table: &mut [u32], bytes: &mut [u8]) -> Answer
    ensures answer { told result ≡ again sheet.now (length table.old) (length bytes.old) }
    ensures bytes { bytes.new ≡ after_again sheet.now (length table.old) bytes.old }
{
    let rows = sheet::read(sheet, table)?;
    let end = sheet::ROW * rows as usize;
    sheet::write(&table[..end], bytes)
}

fn print_row(rt: &impl Print, row: [u32; sheet::ROW]) -> io::Result<()> {
    rt.write_all(&sheet::print_line(row))
}

// Prints what a sheet comes to: itself, or the refusal's line.
fn print_again(
    rt: &impl Print,
    sheet: &[u8],
    table: &mut [u32],
    bytes: &mut [u8],
) -> io::Result<()> {
    match again(sheet, table, bytes) {
        Ok(count) => rt.write_all(&bytes[..count as usize]),
        Err(refusal) => print_row(rt, refusal.into()),
    }
}

// Prints what is answered for a sheet with so many numbers and bytes lent.
fn lend(rt: &impl Print, sheet: &[u8], numbers: usize, room: usize) -> io::Result<()> {
    let mut table = [0u32; MOST_NUMBERS];
    let mut bytes = [0u8; BYTES];
    let (Some(table), Some(bytes)) = (table.get_mut(..numbers), bytes.get_mut(..room)) else {
        return Ok(());
    };
    print_row(rt, answer_row(again(sheet, table, bytes)))
}

// Enough lent; just enough for twelve lines; a number short; a byte short; nothing.
fn run_lendings(rt: &impl Print, sheet: &[u8]) -> io::Result<()> {
    lend(rt, sheet, MOST_NUMBERS, BYTES)?;
    lend(rt, sheet, 96, 780)?;
    lend(rt, sheet, 95, 780)?;
    lend(rt, sheet, 96, 779)?;
    lend(rt, sheet, 0, 0)
}

// Runs a sheet in one of two ways. Which is a flag, since a word holds for all files after it.
fn run_sheet(rt: &impl Print, sheet: &[u8], lendings: bool) -> io::Result<()> {
    if lendings {
        return run_lendings(rt, sheet);
    }
    let mut table = [0u32; MOST_NUMBERS];
    let mut bytes = [0u8; BYTES];
    print_again(rt, sheet, &mut table, &mut bytes)
}

// Each program that runs files has its own lines that read one: no contract can say what they answer.
fn read_file(rt: &(impl Files + AllocGlobal), path: &str) -> io::Result<Vec<u8>> {
    let mut bytes = Vec::new(rt.alloc());
    fs::open(rt, path)?
        .take(MOST_INPUT)
        .read_to_end(&mut bytes)?;
    Ok(bytes)
}

// Runs one file.
fn run(
    rt: &(impl Files + AllocGlobal + Print + Eprint),
    path: &str,
    lendings: bool,
) -> io::Result<()> {
    match read_file(rt, path) {
        Ok(sheet) => {
            println!(rt; "{path}")?;
            run_sheet(rt, &sheet, lendings)
        }
        Err(error) => eprintln!(rt; "{path}: {error}"),
    }
}

// Writes the front of a table into so many bytes, and prints the answer.
fn write_front(rt: &impl Print, table: &[u32], length: usize, room: usize) -> io::Result<()> {
    let mut bytes = [0u8; BYTES];
    let (Some(front), Some(bytes)) = (table.get(..length), bytes.get_mut(..room)) else {
        return Ok(());
    };
    print_row(rt, answer_row(sheet::write(front, bytes)))
}

// The same for a table of zeros but for one number at two places.
fn write_zeros(
    rt: &impl Print,
    length: usize,
    at: usize,
    also_at: usize,
    number: u32,
    room: usize,
) -> io::Result<()> {
    if TABLE <= at || TABLE <= also_at {
        return Ok(());
    }
    let mut table = [0u32; TABLE];
    table[at] = number;
    table[also_at] = number;
    write_front(rt, &table, length, room)
}

// Tables that no sheet gives: wrong lengths, and numbers too large for a field.
fn run_tables(rt: &impl Print) -> io::Result<()> {
    println!(rt; "--tables")?;
    write_zeros(rt, 0, 0, 0, 0, BYTES)?;
    write_zeros(rt, 7, 0, 0, 0, BYTES)?;
    write_zeros(rt, 8, 0, 0, 0, 65)?;
    write_zeros(rt, 9, 0, 0, 0, BYTES)?;
    write_zeros(rt, MOST_NUMBERS, 0, 0, 0, BYTES - 65)?;
    write_zeros(rt, MOST_NUMBERS, 0, 0, 0, BYTES - 66)?;
    write_zeros(rt, TABLE, 0, 0, 0, BYTES)?;
    write_zeros(rt, 80, 79, 79, 99_999_999, 650)?;
    write_zeros(rt, 80, 79, 79, 100_000_000, 649)?;
    write_zeros(rt, 80, 40, 79, u32::MAX, 0)?;
    write_zeros(rt, 80, 23, 16, 100_000_000, 650)?;
    write_zeros(rt, 80, 16, 15, 100_000_000, 650)?;
    write_zeros(rt, 80, 0, 79, 100_000_000, 650)?;
    write_zeros(rt, 79, 0, 79, 100_000_000, 0)?;
    write_zeros(rt, 80, 80, 80, 100_000_000, 650)
}

fn main(rt: HostRuntime) -> io::Result<()> {
    let mut lendings = false;
    for word in env::args(&rt)?.skip(1) {
        match word.as_str() {
            "--lendings" => lendings = true,
            "--tables" => run_tables(&rt)?,
            path => run(&rt, path, lendings)?,
        }
    }
    Ok(())
}
