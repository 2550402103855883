// The kinds of messages.
ghost use Rattle.std.specs.Prelude.{◌≡◌};
ghost use Rattle.terms.specs.Kinds.{kind_number, kind_of, verdict_kind};
ghost use Rattle.terms.specs.Numbers.{told_or_unknown};

use crate::number::UnknownNumber;
use crate::outcome::Outcome;

#[derive(Clone, Copy, Debug, PartialEq, Eq)]
pub enum Kind {
    Line,
    Confirm,
    Deny,
    Commit,
    Abort,
}

// Two matches, one each way: see the head of the module `number`.
impl From<Kind> for u32 {
    ghost from_gives = { λ kind number. number ≡ kind_number kind };

    fn from(kind: Kind) -> u32 {
        match kind {
            Kind::Line => 1,
            Kind::Confirm => 2,
            Kind::Deny => 3,
            Kind::Commit => 4,
            Kind::Abort => 5,
        }
    }
}

impl TryFrom<u32> for Kind {
    type Error = UnknownNumber;

    ghost try_from_gives = { λ number told. told ≡ told_or_unknown (kind_of number) number };

    fn try_from(number: u32) -> Result<Kind, UnknownNumber> {
        match number {
            1 => Ok(Kind::Line),
            2 => Ok(Kind::Confirm),
            3 => Ok(Kind::Deny),
            4 => Ok(Kind::Commit),
            5 => Ok(Kind::Abort),
            _ => Err(UnknownNumber { number }),
        }
    }
}

// The kind of message that tells an outcome.
impl From<Outcome> for Kind {
    ghost from_gives = { λ outcome kind. kind ≡ verdict_kind outcome };

    fn from(outcome: Outcome) -> Kind {
        match outcome {
            Outcome::Commit => Kind::Commit,
            Outcome::Abort => Kind::Abort,
        }
    }
}
