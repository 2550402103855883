// What every carrier promises. Which message a taking chooses is the implementation's, and nothing else.
ghost use Rattle.std.specs.Prelude.{◌≡◌, ℕ, ◌<◌, ◌≤◌, [], ◌∷◌, length};
ghost use Rattle.carrier.specs.Carrying.{Queue, PutOf, TakeOf};

use crate::fault::CarrierFault;
use records::message::Message;

// A message that was taken, and the place at which it waited.
#[derive(Clone, Copy, Debug, PartialEq, Eq)]
pub struct Taken<V> {
    pub message: Message<V>,
    pub place: usize,
}

pub trait Carrier<V: Copy> {
    // What waits, and how many messages may.
    ghost queue: { Self → Queue V };

    // The place that a taking with a hint chooses.
    ghost place: { Self → ℕ → ℕ };

    // Puts the message behind all that wait, unless the limit is reached.
    fn put(&mut self, message: Message<V>) -> Result<(), CarrierFault>
        ensures { PutOf (queue self.old) (message ∷ []) result (queue self.new) };

    // Takes the message at the place that the hint leads to, unless nothing waits.
    fn take(&mut self, hint: u32) -> Result<Taken<V>, CarrierFault>
        ensures { TakeOf (queue self.old) (place self.old hint) result (queue self.new) };

    fn count(&self) -> usize
        ensures { result ≡ length (queue self.now).waiting };

    // The limit, which never changes.
    fn most(&self) -> usize
        ensures { result ≡ (queue self.now).limit };

    ghost bounded: { (c : Self) → length (queue c).waiting ≤ (queue c).limit };

    ghost chosen: { (c : Self) (hint : ℕ) → 0 < length (queue c).waiting → place c hint < length (queue c).waiting };
}
