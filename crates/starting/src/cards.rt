// What is wrong with the cards that a start names.
ghost use Rattle.std.specs.Prelude.{◌≡◌, ◌+◌, ◌≤◌, [], length, Some, None, MatchResult};
ghost use Rattle.terms.specs.Few.{few_list};
ghost use Rattle.terms.specs.Faults.{among};
ghost use Rattle.starting.specs.Drafting.{card_fault, cards_fault};

use records::card;
use records::card::CardTable;
use site::fault::SiteFault;
use terms::few::Few;

fn given(before: Few<u32>, card: u32) -> bool
    ensures { result ≡ among card (few_list before) }
{
    before.any(|other| card == other)
}

// Whether the card of one line may be named at a site, after the cards of the lines before it.
fn check_one<V: Copy>(
    table: &CardTable<'_, V>,
    site: u32,
    before: Few<u32>,
    line: u32,
    number: u32,
) -> Result<(), SiteFault>
    ensures { MatchResult result (λ _. card_fault table.now.size table.now.cards.now site (few_list before) line number ≡ None) (λ fault. card_fault table.now.size table.now.cards.now site (few_list before) line number ≡ Some fault) }
{
    match table.find(number) {
        None => Err(SiteFault::NoCard { line }),
        Some(_) if given(before, number) => Err(SiteFault::CardTwice { line }),
        Some(card) if !card::names(card.holders, site) => Err(SiteFault::NotHeld { line }),
        Some(_) => Ok(()),
    }
}

// The same for some cards from a line on; of the cards before, the last one comes first. Down the list as the
// definition goes, since each card is judged by those before it.
fn check_from<V: Copy>(
    table: &CardTable<'_, V>,
    site: u32,
    before: Few<u32>,
    line: u32,
    named: Few<u32>,
) -> Result<(), SiteFault>
    requires cards { length (few_list before) + length (few_list named) ≤ 4 }
    requires lines { line + length (few_list named) ≤ 5 }
    ensures { MatchResult result (λ _. cards_fault table.now.size table.now.cards.now site (few_list before) line (few_list named) ≡ None) (λ fault. cards_fault table.now.size table.now.cards.now site (few_list before) line (few_list named) ≡ Some fault) }
{
    let Some((card, others)) = named.split_first() else {
        return Ok(());
    };
    check_one(table, site, before, line, card)?;
    check_from(table, site, before.led_by(card), line + 1, others)
}

// Whether a start may name these cards at a site, or the first fault, line by line.
pub(crate) fn check_cards<V: Copy>(
    table: &CardTable<'_, V>,
    site: u32,
    named: Few<u32>,
) -> Result<(), SiteFault>
    ensures { MatchResult result (λ _. cards_fault table.now.size table.now.cards.now site [] 1 (few_list named) ≡ None) (λ fault. cards_fault table.now.size table.now.cards.now site [] 1 (few_list named) ≡ Some fault) }
{
    check_from(table, site, Few::Nothing, 1, named)
}
