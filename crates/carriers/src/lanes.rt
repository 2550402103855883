// The lanes: a taking goes round them from its hint's, and takes the first message of the first lane that has one.
ghost use Rattle.std.specs.Prelude.{◌≡◌, ◌<◌, length};
ghost use Rattle.carriers.specs.Choosing.{lane, distance, lanes_place, FoundFirst};
ghost use Rattle.carriers.specs.Nearest.{least_is_first, found_first};

use crate::choice::Choice;
use crate::store::Store;
use records::message::Message;

fn lane_of<V: Copy>(message: &Message<V>) -> u64
    ensures { result ≡ lane message.now }
{
    (message.from as u64 * 8 + message.to as u64) % 64
}

// How many lanes are passed before the message's own is reached.
fn distance_of<V: Copy>(hint: u32, message: &Message<V>) -> u64
    ensures { result ≡ distance hint (lane message.now) }
{
    (lane_of(message) + 64 - hint as u64 % 64) % 64
}

pub struct ByLane;

impl<V: Copy> Choice<V> for ByLane {
    ghost place = { lanes_place };

    ghost Promised = { FoundFirst };

    ghost within = { λ waiting hint some. (least_is_first (λ m. distance hint (lane m)) waiting some).waits };

    ghost kept = { λ waiting hint some. found_first hint waiting _ (least_is_first (λ m. distance hint (lane m)) waiting some) };

    fn choose(waiting: &[Message<V>], hint: u32) -> Option<usize> {
        waiting
            .iter()
            .enumerate()
            .min_by_key(|(_, message)| distance_of(hint, message))
            .map(|(place, _)| place)
    }
}

pub type Lanes<V> = Store<V, ByLane>;
