// The lines of a rule with the cards that a start names for them.
ghost use Rattle.std.specs.Prelude.{◌≡◌, length};
ghost use Rattle.terms.specs.Few.{few_list};
ghost use Rattle.book.specs.Meaning.{modes_in};
ghost use Rattle.starting.specs.Steps.{Paired};

use terms::few::Few;
use terms::mode::Mode;

// One line of a rule and its card.
#[derive(Clone, Copy, Debug, PartialEq, Eq)]
pub struct Step {
    pub mode: Mode,
    pub card: u32,
}

// The steps, one for each line; none if there is not one card for each.
pub fn pair_up(modes: Few<Mode>, cards: Few<u32>) -> Option<Few<Step>>
    ensures { Paired (modes_in modes) (few_list cards) result }
{
    if modes.len() != cards.len() {
        return None;
    }
    Some(modes.zip(cards).map(|(mode, card)| Step { mode, card }))
}
