// Why a call is refused (01, 'Ranges and refusal numbers').
ghost use Rattle.std.specs.Prelude.{◌≡◌};
ghost use Rattle.sums.specs.Refused.{number_of};

#[derive(Clone, Copy, Debug, PartialEq, Eq)]
pub enum Refusal {
    // a number is out of range
    Range,
    // a slice is not of its length
    Length,
    // fewer rows than clusters
    FewRows,
    // no draws, or too many
    Draws,
    // of two or more distances one is a NaN
    Unordered,
    // an oversize group has fewer rows than there are to be parts
    Indivisible,
    // the budget of splits is spent
    Budget,
    // no batch file
    Misshapen,
    // a row that no score places (02 (iii))
    Unplaced,
    // no result file (02 (vi))
    NoResult,
}

impl From<Refusal> for u32 {
    ghost from_gives = { λ refusal number. number ≡ number_of refusal };

    // The number that hosts and files have for it.
    fn from(refusal: Refusal) -> u32 {
        match refusal {
            Refusal::Range => 1,
            Refusal::Length => 2,
            Refusal::FewRows => 3,
            Refusal::Draws => 4,
            Refusal::Unordered => 5,
            Refusal::Indivisible => 6,
            Refusal::Budget => 7,
            Refusal::Misshapen => 8,
            Refusal::Unplaced => 9,
            Refusal::NoResult => 10,
        }
    }
}
