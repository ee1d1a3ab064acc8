// Runs the tables of the sheets that its arguments name, under each name a line. Of a table that is
// accepted: its count of rows, and how many rows are shown of storeys 0 to 4 and of 4,294,967,295. Of
// one that is refused: the refusal's line, 0; number; row; column; and then the rows shown of storeys 1
// to 4, of which there are none. After one of the words below, tables are run in another way. What is
// printed is tested, against the file stdout.
//
// Uses `answer`, `sheet`, `survey` and std. Of a sheet that can't be read it tells on standard error, and
// runs the next; where it can't print, it ends with status 1.
#![tactic(auto)]

use answer::{MOST_NUMBERS, MOST_ROWS, ROW};
use std::io::Read;
use std::rt::Files;
use std::str::FromStr;
use std::{env, fs, io};
use survey::{storey_run, storey_walls};

// How a table is run. No function may hand out a closure for a word, so each way is a case here, and one `match`
// has what it does (`run_table`).
#[derive(Clone, Copy)]
enum Way {
    // Judged as it is;
    Judged,
    // the rows printed that are shown of each storey (--walls);
    Walls,
    // and those of the first run of each storey, which nobody judges (--runs);
    Runs,
    // every front of the table judged, from no number to all of them, and the rows counted of the first
    // run of storeys 0 to 4 and of 4,294,967,295 (--lengths);
    Lengths,
    // judged with 4,294,967,295 in the place of each number in turn (--large);
    Large,
    // judged with a row of zeros after the last (--longer).
    Longer,
}

// A word that names no way.
struct NoWay;

impl FromStr for Way {
    type Err = NoWay;

    fn from_str(word: &str) -> Result<Way, NoWay> {
        match word {
            "--walls" => Ok(Way::Walls),
            "--runs" => Ok(Way::Runs),
            "--lengths" => Ok(Way::Lengths),
            "--large" => Ok(Way::Large),
            "--longer" => Ok(Way::Longer),
            _ => Err(NoWay),
        }
    }
}

// The bytes of as many rows as the longest table has.
const BYTES: usize = MOST_ROWS * sheet::LINE;

// The numbers of a table that is a row longer than the longest.
const TABLE: usize = MOST_NUMBERS + ROW;

// A longer file is cut there, at a length that is still refused.
const MOST_INPUT: u64 = 65_536;

fn print_row(rt: &impl Print, row: [u32; ROW]) -> io::Result<()> {
    rt.write_all(&sheet::print_line(row))
}

// How many rows a part has; the last six digits of that.
fn rows_of(part: &[u32]) -> u32 {
    (part.len() / ROW % 1_000_000) as u32
}

// Judges a table, and counts the rows that are shown of each storey.
fn run_judged(rt: &impl Print, table: &[u32]) -> io::Result<()> {
    let [one, two, three, four] = [1, 2, 3, 4].map(|storey| rows_of(storey_walls(table, storey)));
    match survey::judge(table) {
        Ok(count) => {
            let [zero, largest] = [0, u32::MAX].map(|storey| rows_of(storey_walls(table, storey)));
            print_row(rt, [count, zero, one, two, three, four, largest, 0])
        }
        Err(refusal) => {
            let [_, number, row, column, ..] = <[u32; ROW]>::from(refusal);
            print_row(rt, [0, number, row, column, one, two, three, four])
        }
    }
}

// Prints a storey, the count of its rows, and the rows.
fn print_part(rt: &impl Print, storey: u32, part: &[u32]) -> io::Result<()> {
    print_row(rt, [storey, rows_of(part), 0, 0, 0, 0, 0, 0])?;
    let rows = part.len() / ROW;
    if MOST_ROWS < rows {
        return Ok(());
    }
    let mut bytes = [0u8; BYTES];
    sheet::print_rows(part, &mut bytes);
    rt.write_all(&bytes[..rows * sheet::LINE])
}

// Prints the rows of a part for each of storeys 0 to 4.
fn run_parts<F: Fn(&[u32], u32) -> &[u32]>(
    rt: &impl Print,
    table: &[u32],
    part: F,
) -> io::Result<()>
    requires { F.IsAlwaysCallable part }
{
    for storey in 0..5 {
        print_part(rt, storey, part(table, storey))?;
    }
    Ok(())
}

// Runs every front of a table, and counts the rows of the first runs.
fn run_lengths(rt: &impl Print, table: &[u32]) -> io::Result<()> {
    for front in 0..=table.len() {
        run_front(rt, &table[..front])?;
    }
    Ok(())
}

// Judges a table with the largest number in the place of each of its numbers in turn.
fn run_large(rt: &impl Print, table: &mut [u32]) -> io::Result<()> {
    for at in 0..table.len() {
        let number = table[at];
        table[at] = u32::MAX;
        run_judged(rt, table)?;
        table[at] = number;
    }
    Ok(())
}

fn run_front(rt: &impl Print, table: &[u32]) -> io::Result<()> {
    run_judged(rt, table)?;
    let [zero, one, two, three, four, largest] = [0, 1, 2, 3, 4, u32::MAX].map(|storey| rows_of(
        storey_run(table, storey),
    ));
    print_row(rt, [zero, one, two, three, four, largest, 0, 0])
}

// Runs the front of a table in one of the ways; what stands after it is zeros.
fn run_table(rt: &impl Print, table: &mut [u32], length: usize, way: Way) -> io::Result<()> {
    if MOST_NUMBERS < length || table.len() < length + ROW {
        return Ok(());
    }
    let longer = length + ROW;
    match way {
        Way::Judged => run_judged(rt, &table[..length]),
        Way::Walls => run_parts(
            rt,
            &table[..length],
            |table, storey| storey_walls(table, storey),
        ),
        Way::Runs => run_parts(
            rt,
            &table[..length],
            |table, storey| storey_run(table, storey),
        ),
        Way::Lengths => run_lengths(rt, &table[..length]),
        Way::Large => run_large(rt, &mut table[..length]),
        Way::Longer => run_judged(rt, &table[..longer]),
    }
}

// Reads a sheet and runs its table; of a sheet that is not read it prints the refusal's line.
fn run_sheet(rt: &impl Print, sheet: &[u8], way: Way) -> io::Result<()> {
    let mut table = [0u32; TABLE];
    match sheet::read(sheet, &mut table) {
        Ok(rows) => run_table(rt, &mut table, rows as usize * ROW, way),
        Err(refusal) => print_row(rt, refusal.into()),
    }
}

// Each program that runs files has its own lines that read one: no contract can say what they answer.
fn read_file(rt: &(impl Files + AllocGlobal), path: &str) -> io::Result<Vec<u8>> {
    let mut bytes = Vec::new(rt.alloc());
    fs::open(rt, path)?
        .take(MOST_INPUT)
        .read_to_end(&mut bytes)?;
    Ok(bytes)
}

// Runs one file.
fn run(rt: &(impl Files + AllocGlobal + Print + Eprint), path: &str, way: Way) -> io::Result<()> {
    println!(rt; "{path}")?;
    match read_file(rt, path) {
        Ok(sheet) => run_sheet(rt, &sheet, way),
        Err(error) => eprintln!(rt; "{path}: {error}"),
    }
}

fn main(rt: HostRuntime) -> io::Result<()> {
    let mut way = Way::Judged;
    for word in env::args(&rt)?.skip(1) {
        let word = word.as_str();
        match word.parse::<Way>() {
            Ok(named) => way = named,
            Err(NoWay) => run(&rt, word, way)?,
        }
    }
    Ok(())
}
