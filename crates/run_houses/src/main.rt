// Runs the houses whose sheets its arguments name. Under each name stands the report, or the refusal's
// line; then, for each storey and direction in the report's order, what the record says of it: score,
// whole hundredths, remainder, divisor, which can be too long for a sheet's columns and stand one space
// apart; and then what is answered with just as many bytes lent as the report has, with one byte fewer,
// and with none: number, row, column, count. HOUSES.md beside src/ says what each house is for. What is
// printed is tested, against the file stdout.
//
// Uses `answer`, `files`, `sheet`, `method`, `diagnosis` and std. Of a sheet that can't be read it tells on
// standard error, and runs the next; where it can't print, it ends with status 1.
#![tactic(auto)]

use answer::{MOST_NUMBERS, ROW};
use diagnosis::{MOST_REPORT_BYTES, Record};
use files::answer_row;
use method::Quotient;
use std::io::Read;
use std::rt::Files;
use std::{env, fs, io};

// A longer file is cut there, at a length that is still refused.
const MOST_INPUT: u64 = 65_536;

// Prints what the scoring program prints for a sheet, and answers the count of the report's bytes, if there is
// a report.
fn print_diagnosis(rt: &impl Print, sheet: &[u8]) -> io::Result<Option<usize>> {
    let output = diagnosis::output_of(sheet);
    rt.write_all(output.printed())?;
    Ok(output.answer.ok().map(|count| count as usize))
}

// Prints what a record says of each storey and direction. Where there is none it has 0 alone, and nothing is
// printed; anything else would show as a line too many.
fn print_record(rt: &impl Print, found: &Record) -> io::Result<()> {
    let count = found.count as usize;
    for (at, (&score, &quotient)) in found.scores.iter().zip(&found.quotients).enumerate() {
        if at < count || score != 0 || quotient != Quotient::default() {
            let Quotient {
                hundredths,
                remainder,
                divisor,
            } = quotient;
            println!(rt; "{score} {hundredths} {remainder} {divisor}")?;
        }
    }
    Ok(())
}

// Prints what the record of a sheet's table says. A sheet that is not read has no table, and one that is refused
// no record.
fn print_sheet_record(rt: &impl Print, sheet: &[u8]) -> io::Result<()> {
    let mut table = [0u32; MOST_NUMBERS];
    let Ok(rows) = sheet::read(sheet, &mut table) else {
        return Ok(());
    };
    let Some(table) = table.get(..ROW * rows as usize) else {
        return Ok(());
    };
    match diagnosis::score(table) {
        Ok(found) => print_record(rt, &found),
        Err(_) => Ok(()),
    }
}

// Prints what is answered for a sheet with so many bytes lent.
fn lend(rt: &impl Print, sheet: &[u8], room: usize) -> io::Result<()> {
    let mut report = [0u8; MOST_REPORT_BYTES];
    let Some(lent) = report.get_mut(..room) else {
        return Ok(());
    };
    let row = answer_row(diagnosis::diagnose(sheet, lent));
    rt.write_all(&sheet::print_line(row))
}

fn run_sheet(rt: &impl Print, sheet: &[u8]) -> io::Result<()> {
    let count = print_diagnosis(rt, sheet)?;
    print_sheet_record(rt, sheet)?;
    if let Some(count @ 1..) = count {
        lend(rt, sheet, count)?;
        lend(rt, sheet, count - 1)?;
    }
    lend(rt, sheet, 0)
}

// Each program that runs files has its own lines that read one: no contract can say what they answer.
fn read_file(rt: &(impl Files + AllocGlobal), path: &str) -> io::Result<Vec<u8>> {
    let mut bytes = Vec::new(rt.alloc());
    fs::open(rt, path)?
        .take(MOST_INPUT)
        .read_to_end(&mut bytes)?;
    Ok(bytes)
}

// Runs the file of that name.
fn run(rt: &(impl Files + AllocGlobal + Print + Eprint), path: &str) -> io::Result<()> {
    println!(rt; "{path}")?;
    match read_file(rt, path) {
        Ok(sheet) => run_sheet(rt, &sheet),
        Err(error) => eprintln!(rt; "{path}: {error}"),
    }
}

fn main(rt: HostRuntime) -> io::Result<()> {
    for path in env::args(&rt)?.skip(1) {
        run(&rt, &path)?;
    }
    Ok(())
}
