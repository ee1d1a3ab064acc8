// What a wall counts towards the held strength, in 0.000001 kN.
#![tactic(auto, using(std::proofs::lemmas::Bool::Decides::nat_tests), unfolding(crate::specs::Held::solid_share, crate::specs::Held::opening_share, crate::specs::Held::wall_share))]

ghost use Rattle.std.specs.Prelude.{◌≡◌, ◌≤◌};
ghost use Rattle.method.specs.Held.{solid_share, opening_share, wall_share};

use crate::joints::joint_factor;
use crate::rows::{House, Wall};

// A solid wall. Going through a house's walls takes a sixth longer where this and `wall_share` are calls, which the
// compiler makes of them once they have several callers.
#[inline(always)]
fn solid_share(house: House, storey: u32, wall: Wall) -> u64
    ensures { result ≡ solid_share house storey wall }
{
    let factor = joint_factor(house, storey, wall);
    u64::from(wall.strength.min(100)) * u64::from(factor) * u64::from(wall.length)
}

// An opening, by its strength in 0.1 kN/m.
fn opening_share(strength: u64, wall: Wall) -> u64
    requires { strength ≤ 6 }
    ensures { result ≡ opening_share strength wall }
{
    strength * 100 * u64::from(wall.length.min(3000))
}

// A wall by its type: 1 solid, 2 window opening, 3 full-height opening; 0 for any other.
#[inline(always)]
pub fn wall_share(house: House, storey: u32, wall: Wall) -> u64
    ensures { result ≡ wall_share house storey wall }
{
    match wall.walltype {
        1 => solid_share(house, storey, wall),
        2 => opening_share(6, wall),
        3 => opening_share(3, wall),
        _ => 0,
    }
}
