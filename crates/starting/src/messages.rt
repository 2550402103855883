// How many messages a start takes.
ghost use Rattle.std.specs.Prelude.{◌≡◌, ◌*◌, ◌≤◌, length};
ghost use Rattle.std.specs.List.{flat_map};
ghost use Rattle.terms.specs.Few.{few_list};
ghost use Rattle.starting.specs.Starting.{next_time, line_messages};

use carrier::sending::target_count;
use records::card::CardTable;
use records::line::Line;
use site::lines::target_mask;
use terms::few::Few;
use terms::time::VirtualTime;

pub(crate) fn time_after(counter: u32, site: u32) -> Option<u32>
    ensures { result ≡ next_time counter site }
{
    let counter = counter.checked_add(1)?;
    u32::try_from(VirtualTime { counter, site }).ok()
}

fn line_count<V: Copy>(table: &CardTable<'_, V>, origin: u32, line: &Line<V>) -> usize
    ensures bound { result ≤ 8 }
    ensures value { result ≡ length (line_messages table.now.size table.now.cards.now origin line.now) }
{
    target_count(target_mask(table, origin, line))
}

// How many messages some lines take from their origin. Down the list as its definition goes: a loop would
// want the definition again as its invariant.
pub(crate) fn message_count<V: Copy>(
    table: &CardTable<'_, V>,
    origin: u32,
    lines: Few<Line<V>>,
) -> usize
    ensures bound { result ≤ 8 * length (few_list lines) }
    ensures value { result ≡ length (flat_map (line_messages table.now.size table.now.cards.now origin) (few_list lines)) }
{
    let Some((line, others)) = lines.split_first() else {
        return 0;
    };
    line_count(table, origin, &line) + message_count(table, origin, others)
}
