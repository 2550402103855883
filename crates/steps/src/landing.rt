// The lines of a start that land at its origin.
ghost use Rattle.std.specs.Prelude.{◌≡◌};
ghost use Rattle.terms.specs.Few.{few_list};
ghost use Rattle.book.specs.Meaning.{modes_in};
ghost use Rattle.site.specs.Tables.{Extends};
ghost use Rattle.starting.specs.Landing.{is_denied, start_landing};
ghost use Rattle.steps.specs.Landing.{undenied};

use records::line::Line;
use records::transaction::Entry;
use site::lines::Ruled;
use site::table::append;
use terms::few::Few;
use terms::mark::Mark;

fn is_denied(mark: Mark) -> bool
    ensures { result ≡ is_denied mark }
{
    mark == Mark::Denied
}

// Those of some lines whose entries are not denied. Down the list as its definition goes: a loop would
// want the definition again as its invariant.
fn undenied<V: Copy>(lines: Few<Line<V>>, entries: Few<Entry<V>>) -> Few<Line<V>>
    ensures { few_list result ≡ undenied (few_list lines) (few_list entries) }
{
    let Some((line, other_lines)) = lines.split_first() else {
        return Few::Nothing;
    };
    let Some((entry, other_entries)) = entries.split_first() else {
        return Few::Nothing;
    };
    let others = undenied(other_lines, other_entries);
    if is_denied(entry.mark) {
        others
    } else {
        others.led_by(line)
    }
}

// The lines of a transaction that land at its origin, in line order.
#[tactic(auto, using(crate::proofs::Landed::undenied_land))]
fn landing<V: Copy>(x: &Ruled<V>) -> Few<Line<V>>
    ensures { few_list result ≡ start_landing (modes_in x.now.modes) x.now.transaction }
{
    undenied(x.lines(), x.transaction.entries)
}

// Lands them behind the used lines if there are records for all, and answers how many are used afterwards.
pub(crate) fn land<V: Copy>(lines: &mut [Line<V>], used: usize, x: &Ruled<V>) -> usize
    ensures { Extends lines.old used (start_landing (modes_in x.now.modes) x.now.transaction) result lines.new }
{
    append(lines, used, landing(x))
}
