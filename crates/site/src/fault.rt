// What a site refuses.
ghost use Rattle.std.specs.Prelude.{◌≡◌};
ghost use Rattle.site.specs.Faults.{site_told, of_carrier};
ghost use Rattle.site.specs.declared.fault.SiteFault.TheVariants.{Declined};

use book::fault::BookFault;
use carrier::fault::CarrierFault;
use terms::fault::{Fault, Refusal};

#[derive(Clone, Copy, Debug, PartialEq, Eq)]
pub enum SiteFault {
    UnknownRule,
    WrongCount,
    NoCard { line: u32 },
    CardTwice { line: u32 },
    NotHeld { line: u32 },
    // the book declines
    Declined(BookFault),
    // no transaction can be started for want of records
    NoRecords,
    // the carrier has too few free places
    NoPlaces,
    NothingWaits,
    // a message that no site of this sitting can have sent, or for which no record is free
    Foreign,
    // a verdict is known
    NotOpen,
    Unsettled,
}

impl From<BookFault> for SiteFault {
    ghost from_gives = { λ e r. r ≡ Declined e };

    fn from(e: BookFault) -> SiteFault {
        SiteFault::Declined(e)
    }
}

impl From<CarrierFault> for SiteFault {
    ghost from_gives = { λ e r. r ≡ of_carrier e };

    fn from(e: CarrierFault) -> SiteFault {
        match e {
            CarrierFault::Full => SiteFault::NoPlaces,
            CarrierFault::Empty => SiteFault::NothingWaits,
        }
    }
}

impl Fault for SiteFault {
    ghost told = { site_told };

    fn refusal(&self) -> Refusal {
        match *self {
            SiteFault::UnknownRule => Refusal::plain(6),
            SiteFault::WrongCount => Refusal::plain(7),
            SiteFault::NoCard { line } => Refusal {
                line,
                ..Refusal::plain(8)
            },
            SiteFault::CardTwice { line } => Refusal {
                line,
                ..Refusal::plain(9)
            },
            SiteFault::NotHeld { line } => Refusal {
                line,
                ..Refusal::plain(10)
            },
            SiteFault::Declined(fault) => fault.refusal(),
            SiteFault::NoRecords => Refusal::plain(14),
            SiteFault::NoPlaces => Refusal::plain(15),
            SiteFault::NothingWaits => Refusal::plain(16),
            SiteFault::Foreign => Refusal::plain(17),
            SiteFault::NotOpen => Refusal::plain(18),
            SiteFault::Unsettled => Refusal::plain(19),
        }
    }
}
