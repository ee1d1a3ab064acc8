// The scoring program: a sheet on standard input; on standard output its report, or for a refused sheet
// the one line that tells it. Where its input can't be read or its output can't be printed, it says so on
// standard error and ends with status 1, else with 0.
//
// Uses `diagnosis` and std. It only reads, calls and writes: what it prints is `diagnosis::output_of`'s,
// which is proved there. What comes from standard input and goes to the terminal is tested.
#![tactic(auto)]

use std::io;
use std::io::Read;

// Input that is longer is cut there, at a length that is still number 1.
const MOST_INPUT: u64 = 65_536;

fn main(rt: HostRuntime) -> io::Result<()> {
    let mut sheet = Vec::new(rt.alloc());
    let read = rt.reader().take(MOST_INPUT).read_to_end(&mut sheet);
    if read.is_err() {
        eprintln!(rt; "diagnose: standard input can't be read")?;
    }
    read?;
    let printed = rt.write_all(diagnosis::output_of(&sheet).printed());
    if printed.is_err() {
        eprintln!(rt; "diagnose: the report can't be written")?;
    }
    printed
}
