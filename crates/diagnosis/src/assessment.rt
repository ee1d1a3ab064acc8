// What is worked out for a house, storey by storey and direction by direction. Record and report are made
// of it.
ghost use Rattle.diagnosis.specs.Premises.{Printable};

use crate::accepted::{AcceptedTable, Direction, End};
use crate::held::{BothDirections, HeldSums};
use calendar::age_on;
use method::{
    Bands, Fraction, HousePart, MOST_HELD, Quotient, Strengths, after_repair, band,
    deterioration_factor, floor_type, is_narrow, layout_factor, limited, narrow_factor,
    required_strength, score,
};

// Held strength in 0.000001 kN, required strength in 0.000000001 kN, layout factor in hundredths, score;
// and the score before it is limited, with what is left over.
#[derive(Clone, Copy, Debug, PartialEq, Eq, Default)]
pub struct Assessment {
    pub held: u64,
    pub required: u64,
    pub layout: u8,
    pub score: u32,
    pub quotient: Quotient,
}

// What is worked out for a house. The places are six and the count stands beside them, as in the record of
// document 01: nothing is allocated.
#[derive(Clone, Copy, Debug, PartialEq, Eq)]
pub struct HouseAssessment {
    // By storey from the ground up, and in each storey direction X, then direction Y; all 0 where there
    // is no such storey.
    pub places: [Assessment; 6],
    // How many of these there are: two a storey.
    pub count: u32,
    // The least score.
    pub least: u32,
    // The deterioration factor.
    pub factor: Fraction,
    pub ghost printable: { Printable places count factor },
}

// No score is above it.
const HIGHEST_SCORE: u32 = 999;

impl AcceptedTable<'_> {
    ghost use Rattle.std.specs.Prelude.{◌≡◌, ◌≤◌};
    ghost use Rattle.diagnosis.specs.House.{narrow_storey, narrow, deterioration, assessment_with};
    ghost use Rattle.diagnosis.specs.Internal.{part_band, Assessable, WorkedOut, sums_with, held_by, direction_number};

    // The deterioration factor, by the house's age on the survey day and by whether it was repaired.
    fn deterioration(&self) -> Fraction
        ensures { result ≡ deterioration self.now.table.now }
    {
        let dates = self.dates();
        let age = age_on(dates.completion, dates.survey);
        let factor = deterioration_factor(self.items(), age);
        after_repair(factor, u32::from(self.repaired()))
    }

    // Whether the house has this storey and it is narrow.
    #[tactic(auto, using(std::proofs::lemmas::Bool::Decides::nat_tests), unfolding(crate::specs::House::narrow_storey))]
    fn narrow_storey(&self, storey: u32) -> bool
        ensures { result ≡ narrow_storey self.now.table.now storey }
    {
        storey <= self.house.storeys && is_narrow(self.storey(storey))
    }

    // The narrow factor of a storey, which its ends take too: by the storeys above it, of which there are at
    // most two.
    #[tactic(auto, unfolding(crate::specs::House::narrow))]
    fn narrow_factor(&self, storey: u32) -> u8
        requires { storey ≤ 3 }
        ensures { result ≡ narrow self.now.table.now storey }
    {
        narrow_factor(self.narrow_storey(storey + 1) || self.narrow_storey(storey + 2))
    }

    // The band of an end, by its storey's narrow factor and what its solid walls hold.
    fn end_band(&self, end: HousePart, narrow: u8, held: u64) -> u32
        ensures { result ≡ part_band self.now.house end narrow held }
    {
        let required = required_strength(self.house, end, narrow);
        band(Strengths { held, required })
    }

    // A storey and direction, by what it holds, which any caller may give, and by what its ends hold and the
    // house's deterioration factor.
    fn assess_direction(
        &self,
        storey: u32,
        direction: Direction,
        sums: HeldSums,
        factor: Fraction,
    ) -> Assessment
        requires { Assessable self.now.table.now storey (direction_number direction) sums factor }
        ensures { result ≡ assessment_with self.now.table.now sums.all storey (direction_number direction) }
    {
        let row = self.storey(storey);
        let narrow = self.narrow_factor(storey);
        let held = sums.all;
        let required = required_strength(self.house, self.storey_part(row), narrow);
        let end_a = self.end_part(storey, direction, End::A);
        let end_b = self.end_part(storey, direction, End::B);
        let ends = Bands {
            a: self.end_band(end_a, narrow, sums.a),
            b: self.end_band(end_b, narrow, sums.b),
        };
        let layout = layout_factor(ends, floor_type(row));
        let quotient = score(Strengths { held, required }, layout, factor);
        Assessment {
            held,
            required,
            layout,
            score: limited(quotient),
            quotient,
        }
    }

    // What a storey holds in both directions: in all what is given, or else what its own walls hold; and what
    // its ends hold.
    fn sums_by(&self, storey: u32, given: Option<[u64; 6]>) -> BothDirections
        requires { (1 ≤ storey) × (storey ≤ 3) }
        ensures x { result.x ≡ sums_with self.now.table.now (held_by self.now.table.now given) storey 1 }
        ensures y { result.y ≡ sums_with self.now.table.now (held_by self.now.table.now given) storey 2 }
    {
        let mut sums = self.storey_sums(storey);
        if let Some(held) = given {
            let at = 2 * (storey as usize - 1);
            sums.x.all = held[at].min(MOST_HELD);
            sums.y.all = held[at + 1].min(MOST_HELD);
        }
        sums
    }

    // The table's house, by held strengths that are given, up to 60,000 kN each, or else by what its own walls
    // hold.
    pub(crate) fn assess(&self, given: Option<[u64; 6]>) -> HouseAssessment
        ensures { WorkedOut self.now.table.now (held_by self.now.table.now given) result }
    {
        let storeys = self.house.storeys;
        let factor = self.deterioration();
        let mut places = [Assessment::default(); 6];
        let mut least = HIGHEST_SCORE;
        // Storeys are counted from 0 here, as their places in the array are.
        for below in 0..storeys {
            let storey = below + 1;
            let sums = self.sums_by(storey, given);
            let x = self.assess_direction(storey, Direction::X, sums.x, factor);
            let y = self.assess_direction(storey, Direction::Y, sums.y, factor);
            let at = 2 * below as usize;
            places[at] = x;
            places[at + 1] = y;
            least = least.min(x.score).min(y.score);
        }
        HouseAssessment {
            places,
            count: 2 * storeys,
            least,
            factor,
        }
    }
}
