// Scoring a table, its report, the whole program on slices, and what it prints.
//
// Uses `answer`, `calendar`, `sheet`, `survey` and `method`. Document 01, "Held strength" to "Score and
// verdict", of a table's house; the definitions stand in specs/Rows.antt, House.antt, Answers.antt,
// Report.antt and Program.antt, in that order. A table is judged once, by `survey`, before any number of
// it is used: accepted has it as an `AcceptedTable`, which fills `method`'s structs from its rows. Held sums
// what a storey's walls hold, and assessment works out a house, storey by storey and direction by
// direction, once for record and report alike. Scores, reports and program are what callers call, and
// `AcceptedTable` is for `site`. The comparison of two houses is stated in specs/Comparison.antt. The
// theorems are in proofs/Theorems.antt.
#![tactic(auto)]

mod accepted;
mod assessment;
mod held;
mod program;
mod reports;
mod scores;

pub use accepted::AcceptedTable;
pub use program::{ProgramOutput, diagnose, output_of};
pub use reports::{MOST_REPORT_BYTES, report};
pub use scores::{OwnRecord, Record, score};
