// How far the layout of walls lowers a storey's strength: the bands of its ends, and its floor.
#![tactic(auto, using(std::proofs::lemmas::Bool::Decides::nat_tests, crate::proofs::BandLaws::reached_known), unfolding(crate::specs::LayoutFactor::floor_type))]

ghost use Rattle.std.specs.Prelude.{◌≡◌, ◌≤◌, eqb, unwrap_or};
ghost use Rattle.method.specs.LayoutFactor.{reached, band, floor_type, layout_factor};

use crate::printed::numbered;
use crate::rows::{Bands, Storey, Strengths};

// 000's explanatory table 4.11, in hundredths: the band of one end, then that of the other, each pair for
// floor types I, II and III.
static LAYOUT_FACTORS: [[[u8; 3]; 5]; 5] = [
    [
        [100, 90, 80], // AA
        [70, 65, 60], // AB
        [65, 60, 55], // AC
        [60, 55, 50], // AD
        [55, 50, 45], // AE
    ],
    [
        [70, 65, 60], // BA
        [100, 90, 80], // BB
        [100, 90, 80], // BC
        [75, 70, 60], // BD
        [70, 65, 55], // BE
    ],
    [
        [65, 60, 55], // CA
        [100, 90, 80], // CB
        [100, 90, 80], // CC
        [100, 90, 80], // CD
        [100, 90, 80], // CE
    ],
    [
        [60, 55, 50], // DA
        [75, 70, 60], // DB
        [100, 90, 80], // DC
        [100, 100, 100], // DD
        [100, 100, 100], // DE
    ],
    [
        [55, 50, 45], // EA
        [70, 65, 55], // EB
        [100, 90, 80], // EC
        [100, 100, 100], // ED
        [100, 100, 100], // EE
    ],
];

// Whether an end's sufficiency is at least so many hundredths. That is where limit × required is at most
// 100,000 × held, but such products may be beyond a u64. So the required strength is taken apart, and
// limit × required / 100,000, rounded up, is compared with what is held.
fn reached(end: Strengths, limit: u64) -> bool
    requires { limit ≤ 133 }
    ensures { result ≡ eqb (reached end limit) 1 }
{
    let whole = limit * (end.required / 100_000);
    let rest = (limit * (end.required % 100_000) + 99_999) / 100_000;
    whole + rest <= end.held
}

// The band of an end, A as 0 to E as 4, by its solid walls' held strength and its required strength. It stays a
// number, since `Bands`, to which it goes, may hold any. The limits are written out: from an array it takes twice
// the time.
pub fn band(end: Strengths) -> u32
    ensures { result ≡ band end }
{
    u32::from(reached(end, 33))
        + u32::from(reached(end, 66))
        + u32::from(reached(end, 100))
        + u32::from(reached(end, 133))
}

// A storey's floor type, a void taken into account. Any other number than 1 is no void, and it answers a
// number, since a storey may hold any.
pub fn floor_type(storey: Storey) -> u32
    ensures { result ≡ floor_type storey }
{
    if storey.void == 1 {
        storey.floor.min(2) + 1
    } else {
        storey.floor
    }
}

// The printed factor for the bands of both ends and a floor type, where there is one.
fn printed_factor(ends: Bands, floor: u32) -> Option<u8>
    ensures { unwrap_or result 0 ≡ layout_factor ends floor }
{
    if 5 <= ends.a || 5 <= ends.b {
        return None;
    }
    numbered(&LAYOUT_FACTORS[ends.a as usize][ends.b as usize], floor)
}

// The layout factor for the bands of both ends and a floor type, in hundredths; 0 where there is no such
// band or floor type.
pub fn layout_factor(ends: Bands, floor: u32) -> u8
    ensures { result ≡ layout_factor ends floor }
{
    printed_factor(ends, floor).unwrap_or(0)
}
