// A wall that is to be a row of a table, as document 02, request 7, adds one. It is no row yet, so it has no
// `Row`.
ghost use Rattle.std.specs.Prelude.{◌≡◌, ◌<◌};
ghost use Rattle.survey.specs.Ranges.{lows, highs};
ghost use Rattle.survey.specs.Judgement.{outside, leftmost, place_below, new_wall_column};

use crate::columns::WALL_TYPE;
use crate::ranges::{Range, wall_ranges};
use answer::ROW;

// Whether the number in a column lies outside its range.
#[tactic(auto, unfolding(crate::specs::Judgement::outside))]
fn is_outside(wall: &[u32; ROW], ranges: &[Range; 8], column: usize) -> bool
    requires { column < 8 }
    ensures { result ≡ outside (lows ranges.now) (highs ranges.now) wall.now 0 column }
{
    !ranges[column].contains(wall[column])
}

// The leftmost column whose number lies outside its range.
fn leftmost(wall: &[u32; ROW], ranges: &[Range; 8]) -> Option<usize>
    ensures { result ≡ place_below 8 (leftmost (lows ranges.now) (highs ranges.now) wall.now 0) }
{
    (0..ROW).position(|column| is_outside(wall, ranges, column))
}

// The leftmost column, from 0, in which a wall's numbers lie outside a wall row's ranges, in a house of so many
// storeys.
#[tactic(auto, unfolding(crate::specs::Judgement::new_wall_column))]
pub fn new_wall_column(wall: &[u32; ROW], storeys: u32) -> Option<usize>
    ensures { result ≡ place_below 8 (new_wall_column storeys wall.now) }
{
    leftmost(wall, &wall_ranges(storeys, wall[WALL_TYPE]))
}
