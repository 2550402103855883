// Whether a transaction is started, and which.
ghost use Rattle.std.specs.Prelude.{◌≡◌};
ghost use Rattle.book.specs.Meaning.{modes_in};
ghost use Rattle.terms.specs.Few.{few_list};
ghost use Rattle.knowledge.specs.Knowledge.{seen};
ghost use Rattle.starting.specs.Starting.{if_places, checked, ruled, start_answer};
ghost use Rattle.starting.specs.Steps.{modes_of, cards_of};

use crate::cards::check_cards;
use crate::drafting::Draft;
use crate::messages::{message_count, time_after};
use crate::reading::values_read;
use crate::start::{Order, Room};
use crate::step::{Step, pair_up};
use book::rules::RuleBook;
use knowledge::view::View;
use records::transaction::Transaction;
use site::fault::SiteFault;
use site::lines::Ruled;
use terms::few::Few;
use terms::mode::Mode;

// A start: what the site knows, what is asked of it, and what it may use.
#[derive(Clone, Copy)]
struct Request<'a, V> {
    view: View<'a, V>,
    order: Order<V>,
    room: Room,
}

impl<'a, V: Copy> Request<'a, V> {
    fn if_places(&self, x: Ruled<V>) -> Result<Transaction<V>, SiteFault>
        ensures { result ≡ if_places (seen self.now.view) self.now.order self.now.room (modes_in x.modes) x.transaction }
    {
        if self.room.places < message_count(&self.view.table, self.order.origin, x.lines()) {
            Err(SiteFault::NoPlaces)
        } else {
            Ok(x.transaction)
        }
    }

    // The transaction at a time, run by the book on what the site reads, unless a card is at fault.
    fn run<B: RuleBook<Value = V>>(
        &self,
        book: &B,
        time: u32,
        modes: Few<Mode>,
        steps: Few<Step>,
    ) -> Result<Transaction<V>, SiteFault>
        requires { (modes_of steps ≡ modes_in modes) × (cards_of steps ≡ few_list self.now.order.cards) }
        ensures { result ≡ checked (modes_in modes) (B.RuleBook.answer book.now self.now.order.rule) (seen self.now.view) self.now.order self.now.room time }
    {
        let Order {
            origin,
            rule,
            argument,
            cards,
        } = self.order;
        check_cards(&self.view.table, origin, cards)?;
        let written = book.run(rule, argument, values_read(&self.view, argument, steps))?;
        let draft = Draft {
            view: self.view,
            origin,
            time,
            argument,
        };
        let transaction = Transaction {
            time,
            rule,
            argument,
            entries: draft.entries(1, steps, written),
        };
        self.if_places(Ruled { transaction, modes })
    }

    // The transaction at a time, for the modes that the book gives its rule.
    fn at<B: RuleBook<Value = V>>(
        &self,
        book: &B,
        time: u32,
        modes: Few<Mode>,
    ) -> Result<Transaction<V>, SiteFault>
        ensures { result ≡ ruled (modes_in modes) (B.RuleBook.answer book.now self.now.order.rule) (seen self.now.view) self.now.order self.now.room time }
    {
        if modes.len() == 0 {
            return Err(SiteFault::UnknownRule);
        }
        let steps = pair_up(modes, self.order.cards).ok_or(SiteFault::WrongCount)?;
        self.run(book, time, modes, steps)
    }
}

// Starts a transaction: the record that it is to have, or why it cannot be started.
pub fn start<B: RuleBook>(
    book: &B,
    view: &View<'_, B::Value>,
    order: &Order<B::Value>,
    room: Room,
) -> Result<Transaction<B::Value>, SiteFault>
    ensures { result ≡ start_answer (B.RuleBook.modes book.now order.now.rule) (B.RuleBook.answer book.now order.now.rule) (seen view.now) order.now room }
{
    if view.table.size.transactions as usize <= room.started || room.lines < 4 {
        return Err(SiteFault::NoRecords);
    }
    let time = time_after(room.counter, order.origin).ok_or(SiteFault::NoRecords)?;
    let request = Request {
        view: *view,
        order: *order,
        room,
    };
    request.at(book, time, book.modes_of(order.rule))
}
