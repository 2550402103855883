// A site's own transaction with a time: where it is kept, and what a delivery leaves of it.
ghost use Rattle.std.specs.Prelude.{◌≡◌};
ghost use Rattle.delivering.specs.Owns.{is_own, own_place, remarked};

use crate::effect::Effect;
use book::rules::RuleBook;
use records::card::CardTable;
use records::transaction::Transaction;
use site::table::replace;
use terms::time::VirtualTime;

// Whether a record is the receiver's transaction with this time.
fn is_own<B: RuleBook>(
    book: &B,
    table: &CardTable<'_, B::Value>,
    receiver: u32,
    time: u32,
    x: &Transaction<B::Value>,
) -> bool
    ensures { result ≡ is_own table.now.size table.now.cards.now (B.RuleBook.modes book.now) receiver time x.now }
{
    x.time == time
        && VirtualTime::from(time).site == receiver
        && x.present(table, book.modes_of(x.rule).len())
}

// The place of the receiver's transaction with this time, among those used: the first found.
pub fn find_own<B: RuleBook>(
    book: &B,
    table: &CardTable<'_, B::Value>,
    transactions: &[Transaction<B::Value>],
    receiver: u32,
    time: u32,
) -> Option<usize>
    ensures { result ≡ own_place table.now.size table.now.cards.now (B.RuleBook.modes book.now) receiver time transactions.now }
{
    transactions
        .iter()
        .position(|x| is_own(book, table, receiver, time, x))
}

// Writes the receiver's transaction back at its place if the effect marks a line of it.
pub fn remark<V: Copy>(
    transactions: &mut [Transaction<V>],
    place: Option<usize>,
    effect: &Effect<V>,
)
    ensures { transactions.new ≡ remarked effect.now place transactions.old }
{
    if let Effect::Marks(x) = effect {
        replace(transactions, place, *x);
    }
}
