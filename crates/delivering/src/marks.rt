// What a reply leaves on the transaction whose line it answers.
ghost use Rattle.std.specs.Prelude.{◌≡◌, true, ◌≢◌};
ghost use Rattle.terms.specs.Few.{few_list};
ghost use Rattle.terms.specs.Kinds.{mark_kind};
ghost use Rattle.delivering.specs.Marks.{marked, entry_marked, transaction_marked, marked_from, has_line, PresentAlike};

use records::transaction::{Entry, Transaction};
use terms::few::Few;
use terms::kind::Kind;
use terms::mark::Mark;

// The mark that a message of this kind leaves in place of another: by both, as the rules have it. One that changes
// becomes the one that this kind leaves.
fn next_mark(mark: Mark, kind: Kind) -> Mark
    ensures value { result ≡ marked mark kind }
    ensures by_kind { (result ≢ mark) → mark_kind result ≡ kind }
{
    match (mark, kind) {
        (Mark::Asked, Kind::Confirm) => Mark::Confirmed,
        (Mark::Asked, Kind::Deny) => Mark::Denied,
        (mark, _) => mark,
    }
}

fn mark_entry<V: Copy>(entry: Entry<V>, kind: Kind) -> Entry<V>
    ensures { result ≡ entry_marked kind true entry }
{
    Entry {
        mark: next_mark(entry.mark, kind),
        ..entry
    }
}

// The entries, numbered from 1, with the one of this number marked.
fn mark_entries<V: Copy>(entries: Few<Entry<V>>, number: u32, kind: Kind) -> Few<Entry<V>>
    ensures { few_list result ≡ marked_from kind number 1 (few_list entries) }
{
    entries.zip(Few::Four(1, 2, 3, 4)).map(|(entry, n)| {
        if n == number {
            mark_entry(entry, kind)
        } else {
            entry
        }
    })
}

// The transaction with the line of this number marked, from 1; all else stays, and a record in range stays so.
pub fn mark_line<V: Copy>(x: Transaction<V>, number: u32, kind: Kind) -> Transaction<V>
    ensures value { result ≡ transaction_marked kind number x }
    ensures each { few_list result.entries ≡ marked_from kind number 1 (few_list x.entries) }
    ensures present { PresentAlike result x }
{
    Transaction {
        entries: mark_entries(x.entries, number, kind),
        ..x
    }
}

// Whether there is such a transaction and it has a line with this number, from 1.
pub fn asks<V: Copy>(own: Option<Transaction<V>>, number: u32) -> bool
    ensures { result ≡ has_line own number }
{
    own.is_some_and(|x| 1 <= number && number as usize <= x.entries.len())
}
