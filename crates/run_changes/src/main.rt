// Plays scripts of changes on site. Its arguments go in pairs, a house and a script; both are lines as a sheet has them.
// The lines of the house are the numbers that are lent; before the first step the totals and the rows in use are 0. A
// step of the script is two lines: the first says what is done (`Step`), and the second is the wall of an addition.
//
// After a start, an addition or a deletion stand its answer, a refusal's number, row and column or the whole record, and
// then the caller's own: the rows in use and the six totals. Rows and totals can be too long for a sheet's columns, so
// numbers stand one space apart. Rows of the table are printed where the script says so. What is printed is tested,
// against the file stdout.
//
// Uses `answer`, `sheet`, `method`, `diagnosis`, `site` and std. Of a file that can't be read it tells on
// standard error, and plays the next script; where it can't print, it ends with status 1.
#![tactic(auto)]

use answer::{MOST_NUMBERS, ROW, Refusal};
use diagnosis::Record;
use method::Quotient;
use site::Totals;
use std::io::Read;
use std::rt::Files;
use std::{env, fs, io};

// The numbers of a table that is two rows longer than the longest.
const TABLE: usize = MOST_NUMBERS + 2 * ROW;

// One more than the largest number of a line.
const FIELD: u64 = 100_000_000;

// A longer file is cut there, at a length that is still refused.
const MOST_INPUT: u64 = 65_536;

// A change on site.
#[derive(Clone, Copy)]
enum Change<'a> {
    Start,
    Add(&'a [u32; ROW]),
    // Of the wall in that row, which counts from 1.
    Delete(u32),
}

// What is done in a step.
#[derive(Clone, Copy)]
enum Step<'a> {
    Change(Change<'a>),
    // What the caller writes itself: the total of a place,
    SetTotal(usize, u64),
    // the count of the rows in use,
    SetRows(u32),
    // how many numbers are lent,
    SetLent(usize),
    // and the number at a place of the table.
    SetNumber(usize, u32),
    // The rows that are lent are printed, the last one whole where only its front is lent.
    Show,
}

// A number of up to 20 digits, of which a line has at most eight in a column: three columns, the highest first.
fn joined(columns: [u32; 3]) -> u64 {
    let mut number = 0u64;
    for column in columns {
        number = number.wrapping_mul(FIELD).wrapping_add(u64::from(column));
    }
    number
}

// A number as a u32; the largest where it is larger.
fn narrowed(number: u64) -> u32 {
    u32::try_from(number).unwrap_or(u32::MAX)
}

impl Step<'_> {
    // The step that two lines say: what is done, the place, and a number in three columns. None where they say none.
    fn read<'a>(line: &[u32; ROW], wall: &'a [u32; ROW]) -> Option<Step<'a>> {
        let [what, place, high, middle, low, ..] = *line;
        let place = place as usize;
        let number = joined([high, middle, low]);
        match what {
            1 => Some(Step::Change(Change::Start)),
            2 => Some(Step::Change(Change::Add(wall))),
            3 => Some(Step::Change(Change::Delete(narrowed(number)))),
            4 => Some(Step::SetTotal(place, number)),
            5 => Some(Step::SetRows(narrowed(number))),
            6 => Some(Step::SetLent(number as usize)),
            7 => Some(Step::SetNumber(place, narrowed(number))),
            8 => Some(Step::Show),
            _ => None,
        }
    }
}

fn print_row(rt: &impl Print, row: [u32; ROW]) -> io::Result<()> {
    rt.write_all(&sheet::print_line(row))
}

fn print_record(rt: &impl Print, found: &Record) -> io::Result<()> {
    let verdict = u32::from(found.verdict);
    let started = u32::from(found.started_by_31_may_1981);
    println!(rt;
        "scores {}, verdict {verdict}, started {started}",
        found.count
    )?;
    for (score, quotient) in found.scores.iter().zip(&found.quotients) {
        let Quotient {
            hundredths,
            remainder,
            divisor,
        } = quotient;
        println!(rt; "{score} {hundredths} {remainder} {divisor}")?;
    }
    Ok(())
}

fn print_scoring(rt: &impl Print, scoring: Result<Record, Refusal>) -> io::Result<()> {
    match scoring {
        Ok(found) => print_record(rt, &found),
        Err(refusal) => {
            let number = u32::from(refusal.reason);
            println!(rt; "refused {number} {} {}", refusal.row, refusal.column)
        }
    }
}

// What the caller has: a table, how many of its numbers are lent, and the totals with the count of the rows in use.
#[derive(Drop)]
struct Caller<'a> {
    table: &'a mut [u32],
    lent: usize,
    totals: Totals,
}

impl Caller<'_> {
    fn print_totals(&self, rt: &impl Print) -> io::Result<()> {
        let [a, b, c, d, e, f] = self.totals.held;
        println!(rt; "rows {}, totals {a} {b} {c} {d} {e} {f}", self.totals.rows)
    }

    // Prints the rows of which a number is lent.
    fn print_rows(&self, rt: &impl Print) -> io::Result<()> {
        let (rows, _) = self.table.as_chunks::<ROW>();
        for row in rows.iter().take(self.lent.div_ceil(ROW)) {
            print_row(rt, *row)?;
        }
        Ok(())
    }

    // Makes a change, and prints its answer and the totals afterwards.
    fn change(&mut self, rt: &impl Print, change: Change<'_>) -> io::Result<()> {
        let Some(lent) = self.table.get_mut(..self.lent) else {
            return println!(rt; "too many lent");
        };
        let scoring = match change {
            Change::Start => {
                println!(rt; "start")?;
                site::start(&mut self.totals, lent)
            }
            Change::Add(wall) => {
                println!(rt; "add")?;
                site::add_wall(&mut self.totals, lent, wall)
            }
            Change::Delete(row) => {
                println!(rt; "delete {row}")?;
                site::delete_wall(&mut self.totals, lent, row)
            }
        };
        print_scoring(rt, scoring)?;
        self.print_totals(rt)
    }

    fn take(&mut self, rt: &impl Print, step: Step<'_>) -> io::Result<()> {
        match step {
            Step::Change(change) => return self.change(rt, change),
            Step::SetTotal(place, number) => {
                if let Some(total) = self.totals.held.get_mut(place) {
                    *total = number;
                }
            }
            Step::SetRows(rows) => self.totals.rows = rows,
            Step::SetLent(count) => self.lent = count,
            Step::SetNumber(place, number) => {
                if let Some(cell) = self.table.get_mut(place) {
                    *cell = number;
                }
            }
            Step::Show => return self.print_rows(rt),
        }
        Ok(())
    }
}

// Takes the steps of a script, given as its lines.
fn play_steps(rt: &impl Print, lines: &[u32], caller: &mut Caller<'_>) -> io::Result<()> {
    let (rows, _) = lines.as_chunks::<ROW>();
    let (steps, _) = rows.as_chunks::<2>();
    for [line, wall] in steps {
        match Step::read(line, wall) {
            Some(step) => caller.take(rt, step)?,
            None => println!(rt; "no step")?,
        }
    }
    Ok(())
}

// Plays a script on a house, where both are read.
fn play(rt: &impl Print, house: &[u8], script: &[u8]) -> io::Result<()> {
    let mut table = [0u32; TABLE];
    let mut lines = [0u32; MOST_NUMBERS];
    let rows = sheet::read(house, &mut table);
    let count = sheet::read(script, &mut lines);
    match (rows, count) {
        (Ok(rows), Ok(count)) => {
            let Some(lines) = lines.get(..ROW * count as usize) else {
                return Ok(());
            };
            let mut caller = Caller {
                table: &mut table,
                lent: ROW * rows as usize,
                totals: Totals {
                    held: [0; 6],
                    rows: 0,
                },
            };
            play_steps(rt, lines, &mut caller)
        }
        (Err(refusal), _) | (_, Err(refusal)) => print_row(rt, refusal.into()),
    }
}

// Each program that runs files has its own lines that read one: no contract can say what they answer.
fn read_file(rt: &(impl Files + AllocGlobal), path: &str) -> io::Result<Vec<u8>> {
    let mut bytes = Vec::new(rt.alloc());
    fs::open(rt, path)?
        .take(MOST_INPUT)
        .read_to_end(&mut bytes)?;
    Ok(bytes)
}

// Plays a script on a house, each the file of that name.
fn run(
    rt: &(impl Files + AllocGlobal + Print + Eprint),
    house: &str,
    script: &str,
) -> io::Result<()> {
    println!(rt; "{house} {script}")?;
    match read_file(rt, house) {
        Ok(lines) => match read_file(rt, script) {
            Ok(steps) => play(rt, &lines, &steps),
            Err(error) => eprintln!(rt; "{script}: {error}"),
        },
        Err(error) => eprintln!(rt; "{house}: {error}"),
    }
}

fn main(rt: HostRuntime) -> io::Result<()> {
    let mut words = env::args(&rt)?.skip(1);
    while let (Some(house), Some(script)) = (words.next(), words.next()) {
        run(&rt, &house, &script)?;
    }
    Ok(())
}
