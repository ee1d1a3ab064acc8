// A house's verdict.
ghost use Rattle.std.specs.Prelude.{◌≡◌};
ghost use Rattle.method.specs.Verdicts.{verdict_number};

// What the manual says of a house (000, table 4.9), the better verdict first.
#[derive(Clone, Copy, Debug, PartialEq, Eq, PartialOrd, Ord)]
pub enum Verdict {
    // 倒壊しない.
    DoesNotCollapse = 1,
    // 一応倒壊しない: as far as the diagnosis can tell.
    ApparentlyDoesNotCollapse = 2,
    // 倒壊する可能性がある.
    MayCollapse = 3,
    // 倒壊する可能性が高い.
    LikelyToCollapse = 4,
}

impl From<Verdict> for u32 {
    ghost from_gives = { λ verdict number. number ≡ verdict_number verdict };

    fn from(verdict: Verdict) -> u32 {
        verdict as u32
    }
}
