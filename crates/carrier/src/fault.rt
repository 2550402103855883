// Why a carrier refuses.
ghost use Rattle.carrier.specs.Carrying.{refusal_of};

use terms::fault::{Fault, Refusal};

#[derive(Debug, Clone, Copy, PartialEq, Eq)]
pub enum CarrierFault {
    // fewer free places than the call would put
    Full,
    // nothing waiting
    Empty,
}

impl Fault for CarrierFault {
    ghost told = { refusal_of };

    fn refusal(&self) -> Refusal {
        match self {
            CarrierFault::Full => Refusal::plain(15),
            CarrierFault::Empty => Refusal::plain(16),
        }
    }
}
