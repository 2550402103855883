// A shared card: its opening value, the sites that hold a replica, and the primary among them.
ghost use Rattle.std.specs.Prelude.{◌≡◌, ◌^◌, nat_lt};
ghost use Rattle.records.specs.Present.{holds, card_present, card_at};

use crate::size::Size;

#[derive(Clone, Copy, Debug, PartialEq, Eq)]
pub struct Card<V> {
    pub opening: V,
    // bit s is site s; a plain number, since a damaged record may have any
    pub holders: u32,
    pub primary: u32,
}

// Whether a holder mask names a site.
pub fn names(holders: u32, site: u32) -> bool
    ensures { result ≡ holds holders site }
{
    site < 32 && (holders >> site) % 2 == 1
}

// Whether a holder mask names none but the first n sites.
fn within(holders: u32, n: u32) -> bool
    ensures { result ≡ nat_lt holders (2 ^ n) }
{
    32 <= n || holders >> n == 0
}

impl<V: Copy> Card<V> {
    // Whether the record is in range: it has holders, none of them absent, and the primary is one.
    fn present(&self, size: Size) -> bool
        ensures { result ≡ card_present size self.now }
    {
        0 < self.holders && within(self.holders, size.sites) && names(self.holders, self.primary)
    }
}

// The declared cards of a sitting of some size.
#[derive(Clone, Copy)]
pub struct CardTable<'a, V> {
    pub size: Size,
    pub cards: &'a [Card<V>],
}

impl<'a, V: Copy> CardTable<'a, V> {
    // The declared card with this number, if there is one and its record is in range.
    pub fn find(&self, number: u32) -> Option<Card<V>>
        ensures { result ≡ card_at self.now.size self.now.cards.now number }
    {
        let card = self.cards.get(number as usize)?;
        card.present(self.size).then_some(*card)
    }
}
