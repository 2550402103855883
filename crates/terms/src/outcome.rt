// What became of a transaction.
ghost use Rattle.std.specs.Prelude.{◌≡◌};
ghost use Rattle.terms.specs.Numbers.{told_or_unknown};
ghost use Rattle.terms.specs.Outcomes.{outcome_number, outcome_of};

use crate::number::UnknownNumber;

#[derive(Clone, Copy, Debug, PartialEq, Eq)]
pub enum Outcome {
    Commit,
    Abort,
}

// Two matches, one each way: see the head of the module `number`.
impl From<Outcome> for u32 {
    ghost from_gives = { λ outcome number. number ≡ outcome_number outcome };

    fn from(outcome: Outcome) -> u32 {
        match outcome {
            Outcome::Commit => 1,
            Outcome::Abort => 2,
        }
    }
}

impl TryFrom<u32> for Outcome {
    type Error = UnknownNumber;

    ghost try_from_gives = { λ number told. told ≡ told_or_unknown (outcome_of number) number };

    fn try_from(number: u32) -> Result<Outcome, UnknownNumber> {
        match number {
            1 => Ok(Outcome::Commit),
            2 => Ok(Outcome::Abort),
            _ => Err(UnknownNumber { number }),
        }
    }
}
