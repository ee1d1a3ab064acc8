// Walls added and deleted on site, with running totals in the caller's own record.
//
// Uses `answer`, `survey`, `method` and `diagnosis`. Document 02, request 7; the definitions stand in
// specs/Rows.antt, Totals.antt and Changes.antt, in that order. The state is the lent table and the caller's
// record, `Totals`. Moves moves rows in the lent table, plans has the tests of each change, and changes makes one,
// all by value but for the lent table. Records are the three functions that callers call: each has the
// change made from a copy of the caller's record, and stores the new record where it was accepted. The theorems
// are in proofs/Theorems.antt.
#![tactic(auto)]

mod changes;
mod moves;
mod plans;
mod records;
mod totals;

pub use records::{add_wall, delete_wall, start};
pub use totals::Totals;
