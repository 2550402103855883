// The mode of a line: what its transaction does with the card.
ghost use Rattle.std.specs.Prelude.{◌≡◌};
ghost use Rattle.terms.specs.Modes.{mode_number, mode_of, reads, writes};
ghost use Rattle.terms.specs.Numbers.{told_or_unknown};

use crate::number::UnknownNumber;

#[derive(Clone, Copy, Debug, PartialEq, Eq)]
pub enum Mode {
    Read,
    Write,
    Update,
}

// Two matches, one each way: see the head of the module `number`.
impl From<Mode> for u32 {
    ghost from_gives = { λ mode number. number ≡ mode_number mode };

    fn from(mode: Mode) -> u32 {
        match mode {
            Mode::Read => 1,
            Mode::Write => 2,
            Mode::Update => 3,
        }
    }
}

impl TryFrom<u32> for Mode {
    type Error = UnknownNumber;

    ghost try_from_gives = { λ number told. told ≡ told_or_unknown (mode_of number) number };

    fn try_from(number: u32) -> Result<Mode, UnknownNumber> {
        match number {
            1 => Ok(Mode::Read),
            2 => Ok(Mode::Write),
            3 => Ok(Mode::Update),
            _ => Err(UnknownNumber { number }),
        }
    }
}

impl Mode {
    // Whether a line of this mode reads its card.
    pub fn reads(self) -> bool
        ensures { result ≡ reads (mode_number self) }
    {
        matches!(self, Mode::Read | Mode::Update)
    }

    // Whether a line of this mode writes its card.
    pub fn writes(self) -> bool
        ensures { result ≡ writes (mode_number self) }
    {
        matches!(self, Mode::Write | Mode::Update)
    }
}

// Whether a line with this number of a mode reads its card; one of an unknown mode does not.
pub fn does_read(mode: u32) -> bool
    ensures { result ≡ reads mode }
{
    Mode::try_from(mode).is_ok_and(|mode| mode.reads())
}

// Whether a line with this number of a mode writes its card; one of an unknown mode does not.
pub fn does_write(mode: u32) -> bool
    ensures { result ≡ writes mode }
{
    Mode::try_from(mode).is_ok_and(|mode| mode.writes())
}
