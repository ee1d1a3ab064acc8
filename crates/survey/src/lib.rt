// A table's rows: which refusal a table gets, if any, where its parts row and its dates row stand, and a
// storey's walls as a part of it.
//
// Uses `answer` and, for the dates row, `calendar`. Document 01, "The sheet and the table" and "What a
// refused sheet is told", and document 02, requests 1, 3 and 5; the definitions stand in
// specs/Table.antt, Ranges.antt, Judgement.antt, Acceptance.antt and Walls.antt, in that order. The
// theorems are in proofs/Theorems.antt. The columns have names, in src/columns.rt.
#![tactic(auto)]

pub mod columns;
mod judgement;
mod kind;
mod new_walls;
mod places;
mod ranges;
mod row;
mod rows;
mod table;
mod walls;

pub use judgement::judge;
pub use kind::{RowKind, WallType};
pub use new_walls::new_wall_column;
pub use places::{dates_row, parts_row};
pub use table::cell;
pub use walls::{storey_run, storey_walls};
