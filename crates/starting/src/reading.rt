// What a start reads.
ghost use Rattle.std.specs.Prelude.{◌≡◌};
ghost use Rattle.terms.specs.Few.{few_list};
ghost use Rattle.knowledge.specs.Knowledge.{seen};
ghost use Rattle.starting.specs.Reading.{version_read, values_read};
ghost use Rattle.starting.specs.Steps.{modes_of, cards_of};

use crate::step::Step;
use knowledge::versions::Version;
use knowledge::view::View;
use terms::few::Few;

// The version of a card that a start with this argument reads.
pub(crate) fn version_read<V: Copy>(view: &View<'_, V>, argument: V, card: u32) -> Version<V>
    ensures { result ≡ version_read (seen view.now) argument card }
{
    view.current(card).unwrap_or(Version {
        time: 0,
        value: argument,
    })
}

// The values read, in line order. Down the list as its definition goes: a loop would
// want the definition again as its invariant.
pub(crate) fn values_read<V: Copy>(view: &View<'_, V>, argument: V, steps: Few<Step>) -> Few<V>
    ensures { few_list result ≡ values_read (seen view.now) argument (modes_of steps) (cards_of steps) }
{
    let Some((step, others)) = steps.split_first() else {
        return Few::Nothing;
    };
    let later = values_read(view, argument, others);
    if step.mode.reads() {
        later.led_by(version_read(view, argument, step.card).value)
    } else {
        later
    }
}
