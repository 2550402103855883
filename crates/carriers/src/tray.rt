// The tray: a taking counts round the waiting messages by its hint.
ghost use Rattle.std.specs.Prelude.{◌≡◌};
ghost use Rattle.carriers.specs.Choosing.{tray_place};
ghost use Rattle.std.proofs.Common.{rules};

use crate::choice::Choice;
use crate::store::Store;
use records::message::Message;

pub struct ByPlace;

impl<V: Copy> Choice<V> for ByPlace {
    ghost place = { tray_place };

    ghost Promised = { λ waiting hint place. place ≡ tray_place waiting hint };

    ghost within = { Prim.search rules };

    ghost kept = { Prim.search rules };

    fn choose(waiting: &[Message<V>], hint: u32) -> Option<usize> {
        (hint as usize).checked_rem(waiting.len())
    }
}

pub type Tray<V> = Store<V, ByPlace>;
