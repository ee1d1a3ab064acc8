// What a storey holds in a direction, whole and at each end.
ghost use Rattle.std.specs.Prelude.{◌≡◌, cond};
ghost use Rattle.diagnosis.specs.Rows.{house_of};
ghost use Rattle.diagnosis.specs.House.{row_share, in_direction, solid_at_end};
ghost use Rattle.diagnosis.specs.Internal.{Addable, with_wall, held_sums, direction_number, end_number};

use crate::accepted::{AcceptedTable, Direction, End, wall_of};
use answer::ROW;
use method::wall_share;
use survey::WallType;
use survey::columns::{DIRECTION, PLACE, STOREY, WALL_TYPE};

// What walls of a storey hold in a direction: all of them, and the solid ones at ends a and b.
#[derive(Clone, Copy, Debug, PartialEq, Eq, Default)]
pub struct HeldSums {
    pub all: u64,
    pub a: u64,
    pub b: u64,
}

// What walls of a storey hold in directions X and Y.
#[derive(Clone, Copy, Debug, PartialEq, Eq, Default)]
pub struct BothDirections {
    pub x: HeldSums,
    pub y: HeldSums,
}

// Whether a wall stands in a direction.
#[tactic(auto, using(crate::proofs::Places::direction_is), unfolding(crate::specs::House::in_direction))]
fn in_direction(wall: &[u32; ROW], direction: Direction) -> bool
    ensures { result ≡ in_direction wall.now (direction_number direction) 0 }
{
    wall[DIRECTION] == direction as u32
}

// Whether a wall is solid and stands in a direction at an end. The tests need no jumps: walls come in no
// order, and a jump would often be guessed wrong.
#[tactic(auto, using(crate::proofs::Places::end_is), unfolding(crate::specs::House::solid_at_end))]
fn solid_at_end(wall: &[u32; ROW], direction: Direction, end: End) -> bool
    ensures { result ≡ solid_at_end wall.now (direction_number direction) (end_number end) 0 }
{
    let place = 2 * end as u32 + 1;
    let solid = wall[WALL_TYPE] == WallType::Solid as u32;
    in_direction(wall, direction) & solid & (wall[PLACE] == place)
}

// What a wall adds to a sum: what it counts, where the sum takes it. (`then_some` and `unwrap_or` would say no
// more.)
fn added(takes: bool, counted: u64) -> u64
    ensures { result ≡ cond takes counted 0 }
{
    if takes { counted } else { 0 }
}

impl HeldSums {
    // The sums of a direction with one wall more, by what that wall counts. An opening counts towards the
    // whole alone.
    fn with_wall(self, wall: &[u32; ROW], direction: Direction, counted: u64) -> HeldSums
        requires { Addable self counted }
        ensures { result ≡ with_wall wall.now (direction_number direction) counted self }
    {
        HeldSums {
            all: self.all + added(in_direction(wall, direction), counted),
            a: self.a + added(solid_at_end(wall, direction, End::A), counted),
            b: self.b + added(solid_at_end(wall, direction, End::B), counted),
        }
    }
}

impl AcceptedTable<'_> {
    // What a wall counts in the storey that it names, by its eight numbers.
    pub fn share(&self, wall: &[u32; ROW]) -> u64
        ensures { result ≡ row_share (house_of self.now.table.now) wall.now 0 }
    {
        wall_share(self.house, wall[STOREY], wall_of(wall))
    }

    // What a storey holds in both directions.
    pub(crate) fn storey_sums(&self, storey: u32) -> BothDirections
        ensures x { result.x ≡ held_sums self.now.table.now storey 1 }
        ensures y { result.y ≡ held_sums self.now.table.now storey 2 }
    {
        let mut sums = BothDirections::default();
        let (walls, _) = self.walls(storey).as_chunks::<ROW>();
        for wall in walls {
            let counted = wall_share(self.house, storey, wall_of(wall));
            // The directions are two fields, so each is written out: a loop over them would need an array.
            sums.x = sums.x.with_wall(wall, Direction::X, counted);
            sums.y = sums.y.with_wall(wall, Direction::Y, counted);
        }
        sums
    }
}
