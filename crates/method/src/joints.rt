// The joint factor (000's Kj): how far the joints at its columns lower a solid wall.
#![tactic(auto, using(std::proofs::lemmas::Bool::Decides::nat_tests, crate::proofs::Tables::numbered_nth), unfolding(crate::specs::Held::position, crate::specs::Held::foundation_used, crate::specs::Held::shared_row, crate::specs::Held::interpolated, crate::specs::Held::row_factor))]

ghost use Rattle.std.specs.Prelude.{◌≡◌, ◌<◌, ◌≤◌, [], ◌∷◌, get_or, unwrap_or};
ghost use Rattle.method.specs.Printed.{nth};
ghost use Rattle.method.specs.Held.{position, position_number, foundation_used, shared_row, entry, entry_in, entries, interpolated, row_factor, joint_factor};

use crate::joint_tables::{Line, ONE_STOREY, OTHER_STOREY, TOP_STOREY};
use crate::printed::numbered;
use crate::rows::{House, Wall};

// Which of the three printed tables a storey takes.
#[derive(Clone, Copy, Debug, PartialEq, Eq)]
enum Position {
    // The top storey of two or three.
    TopStorey,
    // Another storey of two or three.
    OtherStorey,
    OneStorey,
}

impl Position {
    fn of(house: House, storey: u32) -> Position
        ensures { position_number result ≡ position house storey }
    {
        if house.storeys == 1 {
            Self::OneStorey
        } else if storey == house.storeys {
            Self::TopStorey
        } else {
            Self::OtherStorey
        }
    }
}

// The foundation whose column a storey takes.
fn foundation_used(house: House, storey: u32) -> u32
    ensures { result ≡ foundation_used house storey }
{
    if house.storeys == 3 && storey == 2 {
        1
    } else {
        house.foundation
    }
}

// The line of one storey's table that a joint takes.
fn shared_row(joint: u32) -> u32
    ensures { result ≡ shared_row joint }
{
    if joint == 4 { 3 } else { joint }
}

// The entry of a foundation at one strength; 0 where there is no such foundation.
fn at_foundation(printed: &[u8; 3], foundation: u32) -> u8
    ensures { result ≡ nth printed.now foundation 0 }
{
    numbered(printed, foundation).unwrap_or(0)
}

// The entries of a foundation in a joint's line. They are written out: with `map` it was tried, and what the
// closure answers, which reads the foundation from outside, did not come out of `map`'s contract.
fn row_of(line: &Line, foundation: u32) -> [u8; 4]
    ensures { result ≡ entries (λ column. nth (get_or line.now column []) foundation 0) }
{
    let [at_2, at_3, at_5, at_7] = line;
    [
        at_foundation(at_2, foundation),
        at_foundation(at_3, foundation),
        at_foundation(at_5, foundation),
        at_foundation(at_7, foundation),
    ]
}

// The same by the house's snow and the line's number, where the tables of a position have such a line. The line is
// read where it stands: `numbered` would copy it, and a wall would take a tenth more instructions.
fn row_in<const LINES: usize>(
    tables: &[[Line; LINES]; 4],
    snow: u32,
    foundation: u32,
    line: u32,
) -> Option<[u8; 4]>
    ensures { unwrap_or result (0 ∷ 0 ∷ 0 ∷ 0 ∷ []) ≡ entries (entry_in tables.now snow foundation line) }
{
    let at = snow as usize;
    if tables.len() <= at {
        return None;
    }
    let table: &[Line] = &tables[at];
    let number = line as usize;
    if number < 1 || table.len() < number {
        return None;
    }
    Some(row_of(&table[number - 1], foundation))
}

// The printed entries at 2.0, 3.0, 5.0 and 7.0 kN/m for a joint in a storey, where there is such a table and
// such a joint in it.
fn row(house: House, storey: u32, joint: u32) -> Option<[u8; 4]>
    ensures { unwrap_or result (0 ∷ 0 ∷ 0 ∷ 0 ∷ []) ≡ entries (entry house.snow (position house storey) (foundation_used house storey) joint) }
{
    let snow = house.snow;
    let foundation = foundation_used(house, storey);
    match Position::of(house, storey) {
        Position::TopStorey => {
            let at = snow as usize;
            if TOP_STOREY.len() <= at {
                return None;
            }
            numbered(&TOP_STOREY[at], joint)
        }
        Position::OtherStorey => row_in(&OTHER_STOREY, snow, foundation, joint),
        Position::OneStorey => row_in(&ONE_STOREY, snow, foundation, shared_row(joint)),
    }
}

// The straight line from one strength and its entry to the next, to the nearest hundredth, half up.
fn interpolated<const FROM: u32, const TO: u32>(left: u8, right: u8, strength: u32) -> u32
    requires width { FROM < TO }
    requires most { TO ≤ 70 }
    requires above { FROM ≤ strength }
    requires below { strength ≤ TO }
    ensures { result ≡ interpolated FROM TO left right strength }
{
    let width = TO - FROM;
    let sum = u32::from(left) * (TO - strength) + u32::from(right) * (strength - FROM);
    (2 * sum + width) / (2 * width)
}

// The factor of a strength, in 0.1 kN/m, by the entries of a row, case by case: below 2.0 kN/m the entry at
// 2.0, then three straight stretches, and above 7.0 the entry at 7.0. At 2.0, 3.0, 5.0 and 7.0 the cases on
// both sides give the printed entry (theorem `cases_meet`).
fn row_factor(row: [u8; 4], strength: u32) -> u32
    ensures { result ≡ row_factor (λ column. get_or row column 0) strength }
{
    let [at_2, at_3, at_5, at_7] = row;
    match strength {
        ..20 => u32::from(at_2),
        20..30 => interpolated::<20, 30>(at_2, at_3, strength),
        30..50 => interpolated::<30, 50>(at_3, at_5, strength),
        50..70 => interpolated::<50, 70>(at_5, at_7, strength),
        70.. => u32::from(at_7),
    }
}

// The joint factor of a solid wall, in hundredths; 0 where its table has no such entry.
pub fn joint_factor(house: House, storey: u32, wall: Wall) -> u8
    ensures { result ≡ joint_factor house storey wall }
{
    let row = row(house, storey, wall.joint).unwrap_or([0; 4]);
    row_factor(row, wall.strength) as u8
}
