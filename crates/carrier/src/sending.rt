// Sending one message to several sites through any carrier.
ghost use Rattle.std.specs.Prelude.{◌≡◌, length};
ghost use Rattle.carrier.specs.Carrying.{PutOf, places_left};
ghost use Rattle.carrier.specs.Sending.{targets, addressed, copies};

use crate::carrier::Carrier;
use crate::fault::CarrierFault;
use records::card::names;
use records::message::Message;

// To how many sites a mask sends: bit s is site s, from 0 to 7.
pub fn target_count(sites: u32) -> usize
    ensures { result ≡ length (targets sites) }
{
    (0..8).filter(|site| names(sites, *site)).count()
}

// How many messages could still be put.
pub fn free_places<V: Copy, C: Carrier<V>>(carrier: &C) -> usize
    ensures { result ≡ places_left (C.Carrier.queue carrier.now) }
{
    carrier.most() - carrier.count()
}

// The message, to one site.
fn to_site<V: Copy>(message: Message<V>, site: u32) -> Message<V>
    ensures { result ≡ addressed message site }
{
    Message {
        to: site,
        ..message
    }
}

// Sends the message to each site that the mask names, in rising order, if there are places for all; else to none.
pub fn send_to<V: Copy, C: Carrier<V>>(
    carrier: &mut C,
    message: Message<V>,
    sites: u32,
) -> Result<(), CarrierFault>
    ensures { PutOf (C.Carrier.queue carrier.old) (copies message sites) result (C.Carrier.queue carrier.new) }
{
    if free_places(carrier) < target_count(sites) {
        return Err(CarrierFault::Full);
    }
    // Over a filtered range the check does not cover a loop that puts.
    for site in 0..8 {
        if names(sites, site) {
            carrier.put(to_site(message, site))?;
        }
    }
    Ok(())
}
