// A table scored: its record, or the refusal.
ghost use Rattle.std.specs.Prelude.{◌≡◌, leb, map};
ghost use Rattle.diagnosis.specs.declared.assessment.Assessment.{Assessment};
ghost use Rattle.diagnosis.specs.Rows.{start_of_work};
ghost use Rattle.diagnosis.specs.House.{held, grants_last_day};
ghost use Rattle.diagnosis.specs.Answers.{told_record, six_numbers, counted_as, record_with, record_of, told_scoring, scoring};
ghost use Rattle.diagnosis.specs.Internal.{held_by, record_by};

use crate::accepted::AcceptedTable;
use crate::assessment::HouseAssessment;
use answer::Refusal;
use method::{Quotient, Verdict, verdict};

// Document 01: "a record of up to six scores with the verdict"; document 02, request 3: it "also says
// whether work started by 31 May 1981", and request 4: it "gives beside each score, the whole hundredths,
// the remainder and the divisor". Six scores go by storey from the ground up, and in each storey
// direction X, then direction Y; 0 where there is no such storey. The arrays and the count stand side by side,
// since document 01 names the six scores, and nothing is allocated.
#[derive(Clone, Copy, Debug, PartialEq, Eq)]
pub struct Record {
    pub scores: [u32; 6],
    // How many scores there are: two a storey.
    pub count: u32,
    pub verdict: Verdict,
    // Whether work on the house started by that day, the grant's last.
    pub started_by_31_may_1981: bool,
    // Beside each score, what it was before its limit of 999, with what is left over.
    pub quotients: [Quotient; 6],
}

// A house's record, and what its own walls hold in each storey and direction, in the scores' order.
#[derive(Clone, Copy, Debug, PartialEq, Eq)]
pub struct OwnRecord {
    pub held: [u64; 6],
    pub scored: Record,
}

// The last day on which work could start for the grant.
const GRANTS_LAST_DAY: u32 = 19_810_531;

impl AcceptedTable<'_> {
    // Whether work started by 31 May 1981.
    fn started_by_31_may_1981(&self) -> bool
        ensures { result ≡ leb (start_of_work self.now.table.now) grants_last_day }
    {
        self.dates().start <= GRANTS_LAST_DAY
    }
}

impl HouseAssessment {
    // What is held in each storey and direction.
    fn held(&self) -> [u64; 6]
        ensures { result ≡ map (λ (one : Assessment). one.held) self.now.places }
    {
        self.places.map(|place| place.held)
    }

    // The record of what is worked out for a house, and of whether work started by 31 May 1981.
    fn record(&self, started_by_31_may_1981: bool) -> Record
        ensures { told_record result ≡ record_by self.now started_by_31_may_1981 }
    {
        Record {
            scores: self.places.map(|place| place.score),
            count: self.count,
            verdict: verdict(self.least),
            started_by_31_may_1981,
            quotients: self.places.map(|place| place.quotient),
        }
    }
}

// The record of a table's house. Each storey and direction goes by a held strength, which a caller may give.
impl AcceptedTable<'_> {
    // By held strengths that are given, or else by what its own walls hold.
    #[tactic(auto, using(crate::proofs::Assessments::record_is))]
    fn record(&self, given: Option<[u64; 6]>) -> Record
        ensures { told_record result ≡ record_with self.now.table.now (held_by self.now.table.now given) }
    {
        self.assess(given).record(self.started_by_31_may_1981())
    }

    // By held strengths that are given, one for each score in the scores' order: "the scores of those totals"
    // (document 02, request 7). Any above 60,000 kN counts as that, and those of storeys that the house lacks
    // count for nothing.
    pub fn record_with(&self, given: [u64; 6]) -> Record
        ensures { told_record result ≡ record_with self.now.table.now (counted_as given) }
    {
        self.record(Some(given))
    }

    // By what its own walls hold, with that.
    #[tactic(auto, using(crate::proofs::Assessments::held_is, crate::proofs::Assessments::record_is), unfolding(crate::specs::Answers::record_of))]
    pub fn own_record(&self) -> OwnRecord
        ensures held { result.held ≡ six_numbers self.now.table.now (held self.now.table.now) }
        ensures scored { told_record result.scored ≡ record_of self.now.table.now }
    {
        let house = self.assess(None);
        let started = self.started_by_31_may_1981();
        OwnRecord {
            held: house.held(),
            scored: house.record(started),
        }
    }
}

// Scores any table: its record, or the refusal. Document 01: "scoring has its record in place of the count".
#[tactic(auto, using(survey::proofs::RefusalNumbers::judging_accepts), unfolding(crate::specs::Answers::record_of, crate::specs::Answers::scoring))]
pub fn score(table: &[u32]) -> Result<Record, Refusal>
    ensures { told_scoring result ≡ scoring table.now }
{
    let accepted = AcceptedTable::judged(table)?;
    Ok(accepted.record(None))
}
