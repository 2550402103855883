// What a site knows, of the tables that a step is handed.
ghost use Rattle.std.specs.Prelude.{◌≡◌};
ghost use Rattle.knowledge.specs.Knowledge.{seen};
ghost use Rattle.steps.specs.Handed.{used_site};

use crate::numbers::Used;
use knowledge::view::View;
use records::card::CardTable;
use records::line::Line;
use records::verdict::Verdict;
use site::table::front;

pub(crate) fn view_of<'a, V: Copy>(
    table: CardTable<'a, V>,
    lines: &'a [Line<V>],
    verdicts: &'a [Verdict],
    used: Used,
) -> View<'a, V>
    ensures { seen result ≡ used_site table.entry.size table.entry.cards.now lines.now verdicts.now used }
{
    View {
        table,
        lines: front(lines, used.lines),
        verdicts: front(verdicts, used.verdicts),
    }
}
