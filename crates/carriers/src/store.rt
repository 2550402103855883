// A carrier that keeps its messages in the order put, and takes by a choice. All storage is taken at the start, so that
// a put is refused at the limit and for no other reason.
ghost use Rattle.std.specs.Prelude.{◌≡◌, ◌<◌, ◌≤◌, [], ◌∷◌, length, IfOk, vec_len, vec_capacity};
ghost use Rattle.carrier.specs.Carrying.{PutOf, TakeOf};
ghost use Rattle.carriers.specs.Choosing.{queue_of};
ghost use Rattle.std.proofs.Common.{rules};

use crate::choice::Choice;
use carrier::carrier::{Carrier, Taken};
use carrier::fault::CarrierFault;
use records::message::Message;
use std::alloc::{AllocError, Global};
use std::marker::PhantomData;

#[derive(Drop)]
pub struct Store<V, C> {
    items: Vec<Message<V>>,
    most: usize,
    choice: PhantomData<C>,
    ghost within: { vec_len items ≤ most },
    ghost reserved: { most ≤ vec_capacity items },
}

impl<V: Copy, C: Choice<V>> Store<V, C> {
    // An empty store; it needs memory for as many messages as may wait.
    pub fn new(heap: Global, most: usize) -> Result<Store<V, C>, AllocError>
        ensures { IfOk result (λ s. (s.items.items ≡ []) × (s.most ≡ most)) }
    {
        Ok(Store {
            items: Vec::with_capacity(heap, most)?,
            most,
            choice: PhantomData,
        })
    }
}

impl<V: Copy, C: Choice<V>> Carrier<V> for Store<V, C> {
    ghost queue = { λ c. queue_of c.items.items c.most };

    ghost place = { λ c hint. C.place c.items.items hint };

    ghost bounded = { Prim.search rules };

    ghost chosen = { λ c hint some. C.within c.items.items hint some };

    fn put(&mut self, message: Message<V>) -> Result<(), CarrierFault>
        ensures { PutOf (queue_of self.old.items.items self.old.most) (message ∷ []) result (queue_of self.new.items.items self.new.most) }
    {
        if self.items.len() == self.most {
            return Err(CarrierFault::Full);
        }
        self.items.push_reserved(message);
        Ok(())
    }

    fn take(&mut self, hint: u32) -> Result<Taken<V>, CarrierFault>
        ensures did { TakeOf (queue_of self.old.items.items self.old.most) (C.place self.old.items.items hint) result (queue_of self.new.items.items self.new.most) }
        ensures rule { IfOk result (λ t. C.Promised self.old.items.items hint t.place) }
    {
        let place = C::choose(self.items.as_slice(), hint).ok_or(CarrierFault::Empty)?;
        Ok(Taken {
            message: self.items.remove(place),
            place,
        })
    }

    fn count(&self) -> usize {
        self.items.len()
    }

    fn most(&self) -> usize {
        self.most
    }
}
