// The steps of a small sitting of two sites, with the tally book and a tray, compared with values worked out by hand;
// damaged records, stray messages and full tables among them.
#![tactic(auto)]

#[cfg(test)]
mod tests {
    use book::fault::BookFault;
    use books::tally::Tally;
    use carrier::carrier::Carrier;
    use carriers::tray::Tray;
    use records::card::{Card, CardTable};
    use records::line::Line;
    use records::message::Message;
    use records::size::Size;
    use records::transaction::Transaction;
    use records::verdict::Verdict;
    use site::fault::SiteFault;
    use starting::start::Order;
    use std::process::Abort;
    use std::test::Fail;
    use steps::deliver::deliver;
    use steps::numbers::{Counts, Numbers, Used};
    use steps::settle::settle;
    use steps::start::start;
    use terms::few::Few;
    use terms::mark::Mark;
    use terms::outcome::Outcome;

    const SIZE: Size = Size {
        sites: 2,
        transactions: 8,
    };

    // Card 0 opens with 10, both sites hold it, and site 0 is its primary.
    const CARDS: [Card<u32>; 1] = [Card {
        opening: 10,
        holders: 3,
        primary: 0,
    }];

    const TABLE: CardTable<'static, u32> = CardTable {
        size: SIZE,
        cards: &CARDS,
    };

    const NO_LINE: Line<u32> = Line {
        time: 0,
        number: 0,
        card: 0,
        mode: 0,
        read: 0,
        value: 0,
    };

    const NO_VERDICT: Verdict = Verdict {
        time: 0,
        outcome: Outcome::Abort,
    };

    const NO_TRANSACTION: Transaction<u32> = Transaction {
        time: 0,
        rule: 0,
        argument: 0,
        entries: Few::Nothing,
    };

    const NOTHING: Counts = Counts {
        started: 0,
        put: 0,
        delivered: 0,
    };

    // One site: its records and its numbers.
    #[derive(Drop)]
    struct Board {
        lines: [Line<u32>; 8],
        verdicts: [Verdict; 4],
        used: Used,
    }

    const EMPTY: Used = Used {
        counter: 0,
        lines: 0,
        verdicts: 0,
    };

    fn fresh_board() -> Board {
        Board {
            lines: [NO_LINE; 8],
            verdicts: [NO_VERDICT; 4],
            used: EMPTY,
        }
    }

    // A line of card 0, number 1. The cases of what one site knows have one like it: a crate for both would be longer.
    fn line(time: u32, mode: u32, read: u32, value: u32) -> Line<u32> {
        Line {
            time,
            number: 1,
            card: 0,
            mode,
            read,
            value,
        }
    }

    fn message(kind: u32, from: u32, to: u32, line: Line<u32>) -> Message<u32> {
        Message {
            kind,
            from,
            to,
            line,
        }
    }

    // An order that names card 0.
    fn order(origin: u32, rule: u32, argument: u32) -> Order<u32> {
        Order {
            origin,
            rule,
            argument,
            cards: Few::One(0),
        }
    }

    // What all sites share: the tray, the transactions and the counts.
    #[derive(Drop)]
    struct Shared {
        tray: Tray<u32>,
        transactions: [Transaction<u32>; 4],
        counts: Counts,
    }

    // What an accepted call answers: a transaction's time, nothing, or an outcome.
    #[derive(Clone, Copy, Debug, PartialEq, Eq)]
    enum Answer {
        Started(u32),
        Delivered,
        Settled(Outcome),
    }

    fn numbers(all: &Shared, at: &Board) -> Numbers {
        Numbers {
            used: at.used,
            counts: all.counts,
        }
    }

    fn keep(all: &mut Shared, at: &mut Board, numbers: Numbers) {
        at.used = numbers.used;
        all.counts = numbers.counts;
    }

    fn start_at(all: &mut Shared, at: &mut Board, order: Order<u32>) -> Result<Answer, SiteFault> {
        let before = numbers(all, at);
        let started = start(
            &Tally,
            &mut all.tray,
            &TABLE,
            &mut all.transactions,
            &mut at.lines,
            &at.verdicts,
            before,
            order,
        )?;
        keep(all, at, started.numbers);
        Ok(Answer::Started(started.transaction.time))
    }

    fn deliver_to(
        all: &mut Shared,
        at: &mut Board,
        message: Message<u32>,
    ) -> Result<Answer, SiteFault> {
        let before = numbers(all, at);
        let delivered = deliver(
            &Tally,
            &mut all.tray,
            &TABLE,
            &mut all.transactions,
            &mut at.lines,
            &mut at.verdicts,
            before,
            message,
        )?;
        keep(all, at, delivered.numbers);
        Ok(Answer::Delivered)
    }

    fn settle_at(all: &mut Shared, at: &mut Board, place: usize) -> Result<Answer, SiteFault> {
        let before = numbers(all, at);
        let x = all
            .transactions
            .get(place)
            .copied()
            .unwrap_or(NO_TRANSACTION);
        let settled = settle(
            &Tally,
            &mut all.tray,
            &TABLE,
            &at.lines,
            &mut at.verdicts,
            before,
            x,
        )?;
        keep(all, at, settled.numbers);
        Ok(Answer::Settled(settled.outcome))
    }

    fn fresh(rt: HostRuntime, limit: usize) -> Result<Shared, Fail> {
        Ok(Shared {
            tray: Tray::new(rt.alloc(), limit)?,
            transactions: [NO_TRANSACTION; 4],
            counts: NOTHING,
        })
    }

    #[derive(Clone, Copy)]
    enum Call {
        // site, rule, argument
        Start(u32, u32, u32),
        // hint
        Deliver(u32),
        // the transaction's place
        Settle(usize),
    }

    fn play(all: &mut Shared, at: &mut Board, call: Call) -> Result<Answer, SiteFault> {
        match call {
            Call::Start(site, rule, argument) => start_at(all, at, order(site, rule, argument)),
            Call::Deliver(hint) => {
                let taken = all.tray.take(hint)?;
                deliver_to(all, at, taken.message)
            }
            Call::Settle(place) => settle_at(all, at, place),
        }
    }

    // Plain numbers, so that a row of a table is short: the site's counter, lines and verdicts, the counts of
    // transactions, messages put and delivered; and the marks of the first two transactions.
    #[derive(Clone, Copy, Debug, PartialEq, Eq)]
    struct Figures([usize; 6], [Option<Mark>; 2]);

    const NONE: [Option<Mark>; 2] = [None, None];

    const ASKED: [Option<Mark>; 2] = [Some(Mark::Asked), None];

    const CONFIRMED: [Option<Mark>; 2] = [Some(Mark::Confirmed), None];

    const ASKED_CONFIRMED: [Option<Mark>; 2] = [Some(Mark::Asked), Some(Mark::Confirmed)];

    const DENIED_CONFIRMED: [Option<Mark>; 2] = [Some(Mark::Denied), Some(Mark::Confirmed)];

    // A call at a site, what it answers, and the figures afterwards.
    #[derive(Clone, Copy)]
    struct Row(u32, Call, Result<Answer, SiteFault>, Figures);

    // The mark of a transaction's only line.
    fn mark(x: &Transaction<u32>) -> Option<Mark> {
        match x.entries {
            Few::One(e) => Some(e.mark),
            _ => None,
        }
    }

    fn figures_of(all: &Shared, at: &Board) -> Figures {
        Figures(
            [
                at.used.counter as usize,
                at.used.lines,
                at.used.verdicts,
                all.counts.started,
                all.counts.put as usize,
                all.counts.delivered as usize,
            ],
            [mark(&all.transactions[0]), mark(&all.transactions[1])],
        )
    }

    fn run_row(rt: &impl Abort, all: &mut Shared, at: &mut Board, row: Row) {
        assert_eq!(rt; play(all, at, row.1), row.2);
        assert_eq!(rt; figures_of(all, at), row.3);
    }

    // Site 1 adds 5 and site 0 sets 7 before either hears of the other. The addition is denied, since 8 lies between
    // the time that it read and 9; the verdict on the setting overtakes its line.
    #[test]
    fn sitting(rt: HostRuntime) -> Result<(), Fail> {
        let mut all = fresh(rt, 64)?;
        let mut zero = fresh_board();
        let mut one = fresh_board();
        let rows = [
            Row(
                1,
                Call::Start(1, 2, 5),
                Ok(Answer::Started(9)),
                Figures([1, 1, 0, 1, 1, 0], ASKED),
            ),
            Row(
                0,
                Call::Start(0, 1, 7),
                Ok(Answer::Started(8)),
                Figures([1, 1, 0, 2, 2, 0], ASKED_CONFIRMED),
            ),
            Row(
                0,
                Call::Deliver(0),
                Ok(Answer::Delivered),
                Figures([1, 1, 0, 2, 3, 1], ASKED_CONFIRMED),
            ),
            Row(
                0,
                Call::Settle(1),
                Ok(Answer::Settled(Outcome::Commit)),
                Figures([1, 1, 1, 2, 4, 1], ASKED_CONFIRMED),
            ),
            Row(
                0,
                Call::Settle(1),
                Err(SiteFault::NotOpen),
                Figures([1, 1, 1, 2, 4, 1], ASKED_CONFIRMED),
            ),
            Row(
                1,
                Call::Deliver(2),
                Ok(Answer::Delivered),
                Figures([1, 1, 1, 2, 4, 2], ASKED_CONFIRMED),
            ),
            Row(
                1,
                Call::Deliver(0),
                Ok(Answer::Delivered),
                Figures([1, 2, 1, 2, 4, 3], ASKED_CONFIRMED),
            ),
            Row(
                1,
                Call::Settle(0),
                Err(SiteFault::Unsettled),
                Figures([1, 2, 1, 2, 4, 3], ASKED_CONFIRMED),
            ),
            Row(
                1,
                Call::Deliver(0),
                Ok(Answer::Delivered),
                Figures([1, 2, 1, 2, 4, 4], DENIED_CONFIRMED),
            ),
            Row(
                1,
                Call::Settle(0),
                Ok(Answer::Settled(Outcome::Abort)),
                Figures([1, 2, 2, 2, 5, 4], DENIED_CONFIRMED),
            ),
            Row(
                0,
                Call::Deliver(0),
                Ok(Answer::Delivered),
                Figures([1, 1, 2, 2, 5, 5], DENIED_CONFIRMED),
            ),
        ];
        for r in rows {
            if r.0 == 0 {
                run_row(&rt, &mut all, &mut zero, r);
            } else {
                run_row(&rt, &mut all, &mut one, r);
            }
        }
        // a message of no kind, and none at all
        let stray = message(0, 0, 0, NO_LINE);
        let last = Figures([1, 1, 2, 2, 5, 5], DENIED_CONFIRMED);
        assert_eq!(rt;
            deliver_to(&mut all, &mut zero, stray),
            Err(SiteFault::Foreign)
        );
        assert_eq!(rt; figures_of(&all, &zero), last);
        run_row(
            &rt,
            &mut all,
            &mut zero,
            Row(0, Call::Deliver(0), Err(SiteFault::NothingWaits), last),
        );
        assert_eq!(rt; all.tray.count(), 0);
        // the lines that stand at site 1: the addition, then the setting
        assert_eq!(rt; one.lines[0].value, 15);
        assert_eq!(rt; one.lines[1].value, 7);
        Ok(())
    }

    // Each is foreign to site 1, which has started one transaction, and changes nothing.
    #[test]
    fn strays(rt: HostRuntime) -> Result<(), Fail> {
        let mut all = fresh(rt, 64)?;
        let mut one = fresh_board();
        let sent = line(8, 2, 8, 7);
        let own = line(9, 3, 0, 15);
        run_row(
            &rt,
            &mut all,
            &mut one,
            Row(
                1,
                Call::Start(1, 2, 5),
                Ok(Answer::Started(9)),
                Figures([1, 1, 0, 1, 1, 0], ASKED),
            ),
        );
        let strays = [
            // kind, sender, receiver
            message(6, 0, 1, sent),
            message(1, 2, 1, sent),
            message(1, 0, 2, sent),
            // counter 0, counter 9, a site that is absent
            message(1, 0, 1, line(1, 2, 1, 7)),
            message(4, 0, 1, line(72, 2, 72, 7)),
            message(4, 0, 1, line(10, 2, 10, 7)),
            // mode, time read above the time
            message(1, 0, 1, line(8, 4, 8, 7)),
            message(1, 0, 1, line(8, 2, 9, 7)),
            // no transaction of site 1 has this time
            message(2, 0, 1, line(17, 3, 0, 15)),
            message(2, 0, 1, sent),
        ];
        for stray in strays {
            assert_eq!(rt;
                deliver_to(&mut all, &mut one, stray),
                Err(SiteFault::Foreign)
            );
        }
        assert_eq!(rt; figures_of(&all, &one), Figures([1, 1, 0, 1, 1, 0], ASKED));
        // an answer marks the line, a second one changes nothing
        assert_eq!(rt;
            deliver_to(&mut all, &mut one, message(2, 0, 1, own)),
            Ok(Answer::Delivered)
        );
        assert_eq!(rt;
            deliver_to(&mut all, &mut one, message(3, 0, 1, own)),
            Ok(Answer::Delivered)
        );
        assert_eq!(rt;
            figures_of(&all, &one),
            Figures([1, 1, 0, 1, 1, 2], CONFIRMED)
        );
        // a transaction whose rule the book lacks counts as absent
        all.transactions[0] = Transaction {
            rule: 9,
            ..all.transactions[0]
        };
        assert_eq!(rt;
            deliver_to(&mut all, &mut one, message(2, 0, 1, own)),
            Err(SiteFault::Foreign)
        );
        Ok(())
    }

    // Refusals for want of records and places; each changes nothing.
    #[test]
    fn full(rt: HostRuntime) -> Result<(), Fail> {
        let mut all = fresh(rt, 1)?;
        let mut zero = fresh_board();
        let rows = [
            Row(
                0,
                Call::Start(0, 9, 7),
                Err(SiteFault::UnknownRule),
                Figures([0, 0, 0, 0, 0, 0], NONE),
            ),
            Row(
                0,
                Call::Start(0, 3, 7),
                Err(SiteFault::WrongCount),
                Figures([0, 0, 0, 0, 0, 0], NONE),
            ),
            Row(
                0,
                Call::Start(0, 1, 1_000_000),
                Err(SiteFault::Declined(BookFault { code: 3 })),
                Figures([0, 0, 0, 0, 0, 0], NONE),
            ),
            Row(
                0,
                Call::Start(0, 1, 7),
                Ok(Answer::Started(8)),
                Figures([1, 1, 0, 1, 1, 0], CONFIRMED),
            ),
            // the tray has one place
            Row(
                0,
                Call::Start(0, 1, 7),
                Err(SiteFault::NoPlaces),
                Figures([1, 1, 0, 1, 1, 0], CONFIRMED),
            ),
            Row(
                0,
                Call::Settle(0),
                Err(SiteFault::NoPlaces),
                Figures([1, 1, 0, 1, 1, 0], CONFIRMED),
            ),
        ];
        for r in rows {
            run_row(&rt, &mut all, &mut zero, r);
        }
        let far = message(1, 1, 0, line(25, 2, 25, 1));
        assert_eq!(rt;
            deliver_to(&mut all, &mut zero, far),
            Err(SiteFault::NoPlaces)
        );
        // no record is free for a line, then for a verdict, then for a transaction
        zero.used = Used {
            counter: 1,
            lines: 8,
            verdicts: 4,
        };
        assert_eq!(rt;
            deliver_to(&mut all, &mut zero, far),
            Err(SiteFault::Foreign)
        );
        assert_eq!(rt;
            settle_at(&mut all, &mut zero, 0),
            Err(SiteFault::Unsettled)
        );
        assert_eq!(rt;
            start_at(&mut all, &mut zero, order(0, 9, 7)),
            Err(SiteFault::NoRecords)
        );
        zero.used = EMPTY;
        all.counts = Counts {
            started: 4,
            ..NOTHING
        };
        assert_eq!(rt;
            start_at(&mut all, &mut zero, order(0, 9, 7)),
            Err(SiteFault::NoRecords)
        );
        Ok(())
    }

    // The counts stop at 10^9, and a counter is raised to that of the message.
    #[test]
    fn counts(rt: HostRuntime) -> Result<(), Fail> {
        let mut all = fresh(rt, 64)?;
        let mut zero = fresh_board();
        all.counts = Counts {
            started: 0,
            put: 1_000_000_000,
            delivered: 999_999_999,
        };
        let m = message(1, 1, 0, line(25, 2, 25, 1));
        assert_eq!(rt; deliver_to(&mut all, &mut zero, m), Ok(Answer::Delivered));
        assert_eq!(rt; deliver_to(&mut all, &mut zero, m), Ok(Answer::Delivered));
        assert_eq!(rt;
            figures_of(&all, &zero),
            Figures([3, 2, 0, 0, 1_000_000_000, 1_000_000_000], NONE)
        );
        assert_eq!(rt;
            start_at(&mut all, &mut zero, order(0, 1, 7)),
            Ok(Answer::Started(32))
        );
        Ok(())
    }
}
