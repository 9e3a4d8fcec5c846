// What a call does about rows that no score places (02 (iii)).
ghost use Rattle.std.specs.Prelude.{◌≡◌};
ghost use Rattle.sums.specs.Refused.{number_in};
ghost use Rattle.labels.specs.Mode.{unplaced_refusal};

use sums::refusals::Refusal;

// Every call names one of the two.
#[derive(Clone, Copy, Debug, PartialEq, Eq)]
pub enum Mode {
    // a call with an unplaced row is refused
    Strict,
    // an unplaced row has label 0, as before there was a choice
    OldWay,
}

impl Mode {
    // Unplaced rows refuse a call that is strict.
    #[tactic(auto, unfolding(crate::specs::Mode::unplaced_refusal))]
    pub fn check(self, unplaced: u32) -> Result<(), Refusal>
        ensures { number_in result ≡ unplaced_refusal self unplaced }
    {
        match self {
            Mode::OldWay => Ok(()),
            Mode::Strict => {
                if unplaced == 0 {
                    return Ok(());
                }
                Err(Refusal::Unplaced)
            }
        }
    }
}
