// What speaks against a transaction at its origin: the marks of its lines, and the writers that it read from.
ghost use Rattle.std.specs.Prelude.{◌≡◌};
ghost use Rattle.terms.specs.Few.{few_list};
ghost use Rattle.book.specs.Meaning.{modes_in};
ghost use Rattle.knowledge.specs.Knowledge.{seen};
ghost use Rattle.site.specs.Lines.{lines_of};
ghost use Rattle.settling.specs.Doubts.{writer_is, any_writer, mark_is, any_mark};

use knowledge::view::View;
use records::transaction::Entry;
use site::lines::Ruled;
use terms::few::Few;
use terms::mark::Mark;
use terms::mode;

// Against committing, or already for aborting: cases of one definition, and so an enum and no closures.
#[derive(Clone, Copy, Debug, PartialEq, Eq)]
pub enum Doubt {
    // a line is denied, or a time read is known as aborted
    Refuted,
    // a line is not confirmed, or a time read is neither 0 nor known as committed
    Unproved,
}

fn mark_is(doubt: Doubt, mark: Mark) -> bool
    ensures { result ≡ mark_is doubt mark }
{
    match doubt {
        Doubt::Refuted => mark == Mark::Denied,
        Doubt::Unproved => mark != Mark::Confirmed,
    }
}

pub(crate) fn any_mark<V: Copy>(doubt: Doubt, entries: Few<Entry<V>>) -> bool
    ensures { result ≡ any_mark doubt (few_list entries) }
{
    entries.any(|entry| mark_is(doubt, entry.mark))
}

fn writer_is<V: Copy>(view: &View<'_, V>, doubt: Doubt, time: u32) -> bool
    ensures { result ≡ writer_is (seen view.now) doubt time }
{
    match doubt {
        Doubt::Refuted => view.aborted(time),
        Doubt::Unproved => time != 0 && !view.committed(time),
    }
}

// Whether there is a doubt about a writer that one of the lines read from.
pub(crate) fn any_writer<V: Copy>(view: &View<'_, V>, doubt: Doubt, x: &Ruled<V>) -> bool
    ensures { result ≡ any_writer (seen view.now) doubt (lines_of (modes_in x.now.modes) x.now.transaction) }
{
    x.lines().any(|line| mode::does_read(line.mode) && writer_is(view, doubt, line.read))
}
