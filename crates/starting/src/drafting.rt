// The transaction that a start makes.
ghost use Rattle.std.specs.Prelude.{◌≡◌, ◌+◌, ◌≤◌, length};
ghost use Rattle.terms.specs.Few.{few_list};
ghost use Rattle.terms.specs.Modes.{mode_number};
ghost use Rattle.knowledge.specs.Knowledge.{seen};
ghost use Rattle.starting.specs.Drafting.{first_mark, drafted_line, drafted_entry, still_to_write, drafted};
ghost use Rattle.starting.specs.Steps.{modes_of, cards_of};

use crate::reading::version_read;
use crate::step::Step;
use knowledge::view::View;
use records::line::Line;
use records::transaction::Entry;
use terms::few::Few;
use terms::mark::Mark;

// What a site knows, and the origin, the time and the argument of a start there.
#[derive(Clone, Copy)]
pub(crate) struct Draft<'a, V> {
    pub view: View<'a, V>,
    pub origin: u32,
    pub time: u32,
    pub argument: V,
}

impl<'a, V: Copy> Draft<'a, V> {
    // The mark of a line at its origin: its own check if it is the card's primary.
    fn mark(&self, line: &Line<V>) -> Mark
        ensures { result ≡ first_mark (seen self.now.view) self.now.origin line.now }
    {
        match self.view.table.find(line.card) {
            Some(card) if card.primary != self.origin => Mark::Asked,
            Some(_) if self.view.denies(line) => Mark::Denied,
            Some(_) => Mark::Confirmed,
            None => Mark::Asked,
        }
    }

    // The line of a step, if these values are still to be written.
    fn line(&self, number: u32, step: Step, written: Few<V>) -> Line<V>
        ensures { result ≡ drafted_line (seen self.now.view) self.now.time self.now.argument number (mode_number step.mode) step.card (few_list written) }
    {
        let version = version_read(&self.view, self.argument, step.card);
        Line {
            time: self.time,
            number,
            card: step.card,
            mode: step.mode.into(),
            read: if step.mode.reads() {
                version.time
            } else {
                self.time
            },
            value: if step.mode.writes() {
                written.get(0).unwrap_or(self.argument)
            } else {
                version.value
            },
        }
    }

    fn entry(&self, number: u32, step: Step, written: Few<V>) -> Entry<V>
        ensures { result ≡ drafted_entry (seen self.now.view) self.now.origin self.now.time self.now.argument number (mode_number step.mode) step.card (few_list written) }
    {
        let line = self.line(number, step, written);
        Entry {
            card: line.card,
            read: line.read,
            value: line.value,
            mark: self.mark(&line),
        }
    }

    // The entries of the steps, in line order from a number on, where these values are to be written. Down the list as
    // its definition goes, since each step leaves the values to the next.
    pub(crate) fn entries(&self, number: u32, steps: Few<Step>, written: Few<V>) -> Few<Entry<V>>
        requires { number + length (few_list steps) ≤ 5 }
        ensures { few_list result ≡ drafted (seen self.now.view) self.now.origin self.now.time self.now.argument number (modes_of steps) (cards_of steps) (few_list written) }
    {
        let Some((step, others)) = steps.split_first() else {
            return Few::Nothing;
        };
        let later = self.entries(number + 1, others, left_by(step, written));
        later.led_by(self.entry(number, step, written))
    }
}

// The values still to be written after a step.
fn left_by<V: Copy>(step: Step, written: Few<V>) -> Few<V>
    ensures { few_list result ≡ still_to_write (mode_number step.mode) (few_list written) }
{
    match written.split_first() {
        Some((_, others)) if step.mode.writes() => others,
        _ => written,
    }
}
