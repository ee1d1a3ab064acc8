// How far deterioration lowers a house's strength, by the parts that are present and those marked, and
// by whether the house was repaired.
#![tactic(auto, using(std::proofs::lemmas::Bool::Decides::nat_tests, crate::proofs::Points::points_most, crate::proofs::Points::counted_most, crate::proofs::Points::masked_most, crate::proofs::Points::points_under_ten_most, crate::proofs::Theorems::points_masked, crate::proofs::Theorems::points_under_ten_masked), unfolding(crate::specs::Deterioration::counted_marks, crate::specs::Deterioration::factor_of, crate::specs::Deterioration::deterioration_factor, crate::specs::Deterioration::after_repair))]

ghost use Rattle.std.specs.Prelude.{◌≡◌, ◌≤◌};
ghost use Rattle.std.specs.Int.Bits.{bit_and};
ghost use Rattle.std.specs.Int.Count.{ones};
ghost use Rattle.method.specs.Deterioration.{item_points, item_points_under_ten, points, counted_marks, factor_of, deterioration_factor, after_repair};

use crate::rows::Items;

// The items of each weight (000's table 4.8), from the right: item 1 is worth 1, each next item twice the
// one before. Points are found as document 01 says, by mask and count of ones.
const FOUR_POINTS: u32 = 0b0_0000_0000_1000; // item 4

const TWO_POINTS: u32 = 0b1_0111_0001_0111; // items 1, 2, 3, 5, 9, 10, 11, 13

const ONE_POINT: u32 = 0b0_1000_1110_0000; // items 6, 7, 8, 12

// A factor of at most 1, upper over lower. It has no order: 18/20 and 9/10 are equal as factors and not as
// fractions, so the comparisons below multiply out.
#[derive(Clone, Copy, Debug, PartialEq, Eq)]
pub struct Fraction {
    pub upper: u8,
    pub lower: u8,
}

// How many items of a mask are in a set.
fn count_items(set: u32, mask: u32) -> u32
    ensures { result ≡ ones (bit_and set mask) }
{
    (set & mask).count_ones()
}

// The points of a set as for houses under ten years, where items of one point aren't surveyed.
fn points_under_ten(set: u32) -> u32
    ensures { result ≡ points item_points_under_ten set }
{
    4 * count_items(set, FOUR_POINTS) + 2 * count_items(set, TWO_POINTS)
}

// The points of a set.
fn points(set: u32) -> u32
    ensures { result ≡ points item_points set }
{
    points_under_ten(set) + count_items(set, ONE_POINT)
}

// The points of the marks that count, at age 1 (under ten years) or 2 (ten or more). Any other number goes
// by the same test.
fn counted_marks(marked: u32, age: u32) -> u32
    ensures { result ≡ counted_marks marked age }
{
    if age < 2 && points_under_ten(marked) == 0 {
        0
    } else {
        points(marked)
    }
}

// The factor of points present and points marked. It is below 7/10 where 10 × (present − marked) is less
// than 7 × present, here with 10 × marked added on both sides, since more may be marked than is present.
fn factor_of(present: u32, marked: u32) -> Fraction
    requires present { present ≤ 24 }
    requires marked { marked ≤ 24 }
    ensures { result ≡ factor_of present marked }
{
    if marked == 0 {
        Fraction { upper: 1, lower: 1 }
    } else if 10 * present < 7 * present + 10 * marked {
        Fraction {
            upper: 7,
            lower: 10,
        }
    } else {
        Fraction {
            upper: (present - marked) as u8,
            lower: present as u8,
        }
    }
}

// The deterioration factor of the items and an age.
pub fn deterioration_factor(items: Items, age: u32) -> Fraction
    ensures { result ≡ deterioration_factor items age }
{
    factor_of(points(items.present), counted_marks(items.marked, age))
}

// The factor that is used, of a house that was repaired (1) or not: after repair not all rot is found, so
// it is at most 9/10 then. Where it is just that it keeps its own numbers.
pub fn after_repair(factor: Fraction, repaired: u32) -> Fraction
    ensures { result ≡ after_repair factor repaired }
{
    if repaired == 1 && 9 * u32::from(factor.lower) < 10 * u32::from(factor.upper) {
        Fraction {
            upper: 9,
            lower: 10,
        }
    } else {
        factor
    }
}
