// A storey and direction's score, with what is left over, and a house's verdict.
#![tactic(auto, using(std::proofs::lemmas::Bool::Decides::nat_tests), unfolding(crate::specs::Score::quotient, crate::specs::Score::capped_quotient, crate::specs::Score::verdict))]

ghost use Rattle.std.specs.Prelude.{◌≡◌};
ghost use Rattle.method.specs.Score.{capped_quotient, limited, verdict};
ghost use Rattle.method.specs.Verdicts.{verdict_number};

use crate::deterioration::Fraction;
use crate::rows::Strengths;
use crate::verdicts::Verdict;

// 60,000 kN in the unit of held strength and in that of required strength, which no storey exceeds. With
// strengths up to these every product of a score fits a u64.
pub const MOST_HELD: u64 = 60_000_000_000;

const MOST_REQUIRED: u64 = 60_000_000_000_000;

// A score before it is limited: hundredths × divisor + remainder is what was divided, and of a house the
// remainder is smaller than the divisor.
#[derive(Clone, Copy, Debug, PartialEq, Eq, Default)]
pub struct Quotient {
    // The whole hundredths.
    pub hundredths: u64,
    // What is left over.
    pub remainder: u64,
    pub divisor: u64,
}

// The score of what is held and required, a layout factor in hundredths and a deterioration factor, with
// what is left over. Strengths above 60,000 kN count as that. Where the divisor is 0, as of no house, the
// hundredths are 0 and all is left over.
pub fn score(strengths: Strengths, layout: u8, deterioration: Fraction) -> Quotient
    ensures { result ≡ capped_quotient strengths layout deterioration }
{
    let holds = strengths.held.min(MOST_HELD);
    let needs = strengths.required.min(MOST_REQUIRED);
    let dividend = 1000 * holds * u64::from(layout) * u64::from(deterioration.upper);
    let divisor = needs * u64::from(deterioration.lower);
    Quotient {
        hundredths: dividend.checked_div(divisor).unwrap_or(0),
        remainder: dividend.checked_rem(divisor).unwrap_or(dividend),
        divisor,
    }
}

// The score that is printed and judged by, at most 999.
pub fn limited(found: Quotient) -> u32
    ensures { result ≡ limited found }
{
    found.hundredths.min(999) as u32
}

// The verdict of a house's least score.
pub fn verdict(least: u32) -> Verdict
    ensures { verdict_number result ≡ verdict least }
{
    match least {
        150.. => Verdict::DoesNotCollapse,
        100.. => Verdict::ApparentlyDoesNotCollapse,
        70.. => Verdict::MayCollapse,
        _ => Verdict::LikelyToCollapse,
    }
}
