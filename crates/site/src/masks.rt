// To which sites a line goes, as a mask, which is what a card holds.
ghost use Rattle.std.specs.Prelude.{◌≡◌, ℕ, ◌<◌, not, ◌&&◌, Some, ◌==◌};
ghost use Rattle.records.specs.Present.{holds};
ghost use Rattle.site.specs.Lines.{goes_to};

use records::card;
use records::card::Card;
use terms::mode;

// A mask without one site.
fn without(holders: u32, site: u32) -> u32
    ensures { (s : ℕ) → holds result s ≡ (not (s == site) && holds holders s) }
{
    if card::names(holders, site) {
        holders ^ (1 << site)
    } else {
        holders
    }
}

// A mask of one site.
fn only(site: u32) -> u32
    requires { site < 8 }
    ensures { (s : ℕ) → holds result s ≡ (s == site) }
{
    1 << site
}

// The sites below 8 to which a line of this mode on a card goes from its origin. The mode is the line's number, which
// may be any.
pub fn line_mask<V: Copy>(origin: u32, mode: u32, card: &Card<V>) -> u32
    ensures { (s : ℕ) → s < 8 → holds result s ≡ goes_to origin mode (Some card.now) s }
{
    if mode::does_write(mode) {
        without(card.holders, origin)
    } else if card.primary < 8 && card.primary != origin {
        only(card.primary)
    } else {
        0
    }
}
