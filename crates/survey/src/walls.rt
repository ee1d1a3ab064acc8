// A storey's walls, as a part of the lent table.
ghost use Rattle.std.specs.Prelude.{◌≡◌, ◌≤◌, ◌/◌, length};
ghost use Rattle.survey.specs.Walls.{is_wall_of, storey_walls, run_start, run_length, storey_run};

use crate::columns::STOREY;
use crate::judgement::judge;
use crate::table::{cell, is_wall};
use answer::ROW;

// Whether a row is a wall of a storey.
#[tactic(auto, unfolding(crate::specs::Walls::is_wall_of))]
fn is_wall_of(table: &[u32], storey: u32, row: usize) -> bool
    ensures { result ≡ is_wall_of table.now storey row }
{
    is_wall(table, row) && cell(table, row, STOREY) == storey
}

// The first row that is a wall of a storey, or the count of rows: an empty run then starts there. With an
// `Option`, `storey_run` would have a case more.
fn run_start(table: &[u32], storey: u32) -> usize
    ensures { result ≡ run_start table.now storey }
{
    let rows = table.len() / ROW;
    (0..rows)
        .position(|row| is_wall_of(table, storey, row))
        .unwrap_or(rows)
}

// How many walls of a storey follow each other from a row on.
fn run_length(table: &[u32], storey: u32, start: usize) -> usize
    requires { start ≤ length table.now / 8 }
    ensures { result ≡ run_length table.now storey start }
{
    let rows = table.len() / ROW;
    (start..rows)
        .position(|row| !is_wall_of(table, storey, row))
        .unwrap_or(rows - start)
}

// The first unbroken run of a storey's wall rows, in any table. In a table that is accepted these are all
// the walls of the storey, so a caller that has judged the table already need not have it judged again.
#[tactic(auto, using(crate::proofs::StoreyWalls::run_lent), unfolding(crate::specs::Walls::storey_run))]
pub fn storey_run(table: &[u32], storey: u32) -> &[u32]
    ensures { result.now ≡ storey_run table.now storey }
{
    let start = run_start(table, storey);
    let count = run_length(table, storey, start);
    let from = ROW * start;
    let to = from + ROW * count;
    &table[from..to]
}

// A storey's walls in their order; none where the table is refused or the house lacks the storey. They are
// a part of the lent table where they are none too, as document 01 has it: `&[]` would lie elsewhere.
#[tactic(auto, using(crate::proofs::StoreyWalls::walls_shown))]
pub fn storey_walls(table: &[u32], storey: u32) -> &[u32]
    ensures { result.now ≡ storey_walls table.now storey }
{
    if judge(table).is_err() {
        return &table[..0];
    }
    storey_run(table, storey)
}
