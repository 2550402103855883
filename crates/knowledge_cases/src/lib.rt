// Cases of what one site knows, worked out by hand: verdicts, values and the primary's check, with damaged records
// among them, and the tables of the arrivals program when they are full.
#![tactic(auto)]

#[cfg(test)]
mod tests {
    use books::date::Date;
    use desk::play::Play;
    use desk::reply::Reply;
    use knowledge::judge::Judgement;
    use knowledge::versions::Version;
    use knowledge::view::View;
    use records::card::{Card, CardTable};
    use records::line::Line;
    use records::size::Size;
    use records::verdict::Verdict;
    use script::arrival::Arrival;
    use site::fault::SiteFault;
    use std::process::Abort;
    use std::test::Fail;
    use terms::outcome::Outcome;

    // Times 8 to 71 are in range.
    const SIZE: Size = Size {
        sites: 8,
        transactions: 8,
    };

    fn card(holders: u32, primary: u32) -> Card<u32> {
        Card {
            opening: 500,
            holders,
            primary,
        }
    }

    fn line(mode: u32, read: u32, time: u32, value: u32) -> Line<u32> {
        Line {
            time,
            number: 1,
            card: 0,
            mode,
            read,
            value,
        }
    }

    fn verdict(time: u32, outcome: Outcome) -> Verdict {
        Verdict { time, outcome }
    }

    fn version(time: u32, value: u32) -> Version<u32> {
        Version { time, value }
    }

    fn view<'a>(
        cards: &'a [Card<u32>],
        lines: &'a [Line<u32>],
        verdicts: &'a [Verdict],
    ) -> View<'a, u32> {
        View {
            table: CardTable { size: SIZE, cards },
            lines,
            verdicts,
        }
    }

    // Five lines that count as absent: by mode, number, time, card and time read.
    fn damaged() -> [Line<u32>; 5] {
        [
            line(4, 0, 33, 9),
            Line {
                number: 5,
                ..line(3, 0, 33, 9)
            },
            line(3, 0, 72, 9),
            Line {
                card: 1,
                ..line(3, 0, 33, 9)
            },
            line(3, 34, 33, 9),
        ]
    }

    #[test]
    fn verdicts(rt: HostRuntime) {
        let cards = [card(3, 0)];
        let verdicts = [
            verdict(9, Outcome::Abort),
            verdict(9, Outcome::Commit),
            verdict(7, Outcome::Commit),
            verdict(72, Outcome::Abort),
            verdict(16, Outcome::Commit),
        ];
        let view = view(&cards, &[], &verdicts);
        let expected = [
            (9, Some(Outcome::Abort)),
            (16, Some(Outcome::Commit)),
            (7, None),
            (72, None),
            (17, None),
            (0, None),
        ];
        for (time, outcome) in expected {
            assert_eq!(rt; view.known(time), outcome);
            assert_eq!(rt; view.aborted(time), outcome == Some(Outcome::Abort));
            assert_eq!(rt; view.committed(time), outcome == Some(Outcome::Commit));
        }
    }

    // Verdicts, and the current and the committed value that they leave.
    #[derive(Clone, Copy)]
    struct ValueCase<'a>(&'a [Verdict], Version<u32>, Version<u32>);

    #[test]
    fn values(rt: HostRuntime) {
        // no holders; a site that is absent; a primary that is no holder
        let cards = [card(3, 0), card(0, 0), card(259, 0), card(3, 2)];
        let [a, b, c, d, e] = damaged();
        let lines = [
            a,
            line(2, 9, 9, 1),
            b,
            line(3, 9, 17, 2),
            c,
            line(2, 17, 17, 3),
            d,
            line(1, 17, 25, 4),
            e,
        ];
        let cases = [
            ValueCase(&[], version(17, 2), version(0, 500)),
            ValueCase(
                &[verdict(9, Outcome::Commit)],
                version(17, 2),
                version(9, 1),
            ),
            ValueCase(
                &[verdict(17, Outcome::Commit)],
                version(17, 2),
                version(17, 2),
            ),
            ValueCase(
                &[verdict(17, Outcome::Abort)],
                version(9, 1),
                version(0, 500),
            ),
            ValueCase(
                &[verdict(17, Outcome::Abort), verdict(9, Outcome::Commit)],
                version(9, 1),
                version(9, 1),
            ),
            ValueCase(
                &[verdict(9, Outcome::Abort), verdict(17, Outcome::Abort)],
                version(0, 500),
                version(0, 500),
            ),
            ValueCase(
                &[verdict(25, Outcome::Commit), verdict(33, Outcome::Commit)],
                version(17, 2),
                version(0, 500),
            ),
        ];
        for ValueCase(verdicts, current, committed) in cases {
            let view = view(&cards, &lines, verdicts);
            assert_eq!(rt; view.current(0), Some(current));
            assert_eq!(rt; view.committed_value(0), Some(committed));
            for absent in 1..5 {
                assert_eq!(rt; view.current(absent), None);
                assert_eq!(rt; view.committed_value(absent), None);
            }
        }
    }

    // Mode, time read and time of a line, and whether the primary denies it.
    #[derive(Clone, Copy)]
    struct CheckCase(u32, u32, u32, bool);

    fn judge_all<'a>(
        rt: &impl Abort,
        cards: &'a [Card<u32>],
        lines: &'a [Line<u32>],
        verdicts: &'a [Verdict],
        cases: &[CheckCase],
    ) {
        let view = view(cards, lines, verdicts);
        for CheckCase(mode, read, time, denied) in cases {
            assert_eq!(rt; view.denies(&line(*mode, *read, *time, 7)), *denied);
        }
    }

    #[test]
    fn checks_over_versions(rt: HostRuntime) {
        let cards = [card(3, 0), card(0, 0)];
        let write = [line(2, 9, 9, 1)];
        let abort = [verdict(9, Outcome::Abort)];
        judge_all(
            &rt,
            &cards,
            &write,
            &[],
            &[
                CheckCase(1, 0, 17, true),
                CheckCase(1, 8, 17, true),
                CheckCase(1, 9, 17, false),
                CheckCase(1, 0, 9, false),
                CheckCase(1, 0, 10, true),
                CheckCase(2, 10, 10, false),
                CheckCase(3, 0, 17, true),
                CheckCase(4, 0, 17, false),
            ],
        );
        judge_all(
            &rt,
            &cards,
            &write,
            &abort,
            &[CheckCase(3, 0, 17, false), CheckCase(1, 0, 17, false)],
        );
        judge_all(
            &rt,
            &cards,
            &damaged(),
            &[],
            &[CheckCase(2, 16, 16, false), CheckCase(1, 0, 49, false)],
        );
    }

    #[test]
    fn checks_over_reservations(rt: HostRuntime) {
        let cards = [card(3, 0), card(0, 0)];
        let update = [line(3, 9, 17, 2)];
        let abort = [verdict(17, Outcome::Abort)];
        judge_all(
            &rt,
            &cards,
            &update,
            &[],
            &[
                CheckCase(2, 8, 8, false),
                CheckCase(2, 9, 9, false),
                CheckCase(2, 10, 10, true),
                CheckCase(2, 16, 16, true),
                CheckCase(2, 17, 17, false),
                CheckCase(2, 24, 24, false),
                CheckCase(1, 0, 16, false),
                CheckCase(1, 9, 24, true),
                CheckCase(3, 9, 16, true),
                CheckCase(3, 17, 24, false),
            ],
        );
        judge_all(
            &rt,
            &cards,
            &update,
            &abort,
            &[CheckCase(2, 16, 16, false), CheckCase(1, 9, 24, false)],
        );
        let reader = [line(1, 17, 41, 3)];
        let abort = [verdict(41, Outcome::Abort)];
        let commit = [verdict(41, Outcome::Commit), verdict(41, Outcome::Abort)];
        judge_all(
            &rt,
            &cards,
            &reader,
            &[],
            &[
                CheckCase(2, 40, 40, true),
                CheckCase(2, 18, 18, true),
                CheckCase(2, 17, 17, false),
                CheckCase(2, 41, 41, false),
                CheckCase(1, 0, 49, false),
                CheckCase(3, 0, 49, false),
            ],
        );
        judge_all(&rt, &cards, &reader, &abort, &[CheckCase(2, 40, 40, false)]);
        judge_all(&rt, &cards, &reader, &commit, &[CheckCase(2, 40, 40, true)]);
    }

    // A write of a date at a time.
    fn write(time: u32) -> Result<Arrival, u32> {
        Ok(Arrival::Line {
            time,
            mode: 2,
            read: time,
            date: Date::BLANK,
        })
    }

    fn commit(time: u32) -> Result<Arrival, u32> {
        Ok(Arrival::Verdict {
            time,
            outcome: Outcome::Commit,
        })
    }

    #[test]
    fn full_tables(rt: HostRuntime) -> Result<(), Fail> {
        let mut play = Play::new(rt.alloc())?;
        assert_eq!(rt;
            play.answer(Ok(Arrival::Opening(Date::BLANK))),
            Reply::Opened
        );
        for time in 8..136 {
            assert_eq!(rt;
                play.answer(write(time)),
                Reply::Judged(Ok(Judgement::Confirmed))
            );
        }
        assert_eq!(rt;
            play.answer(write(136)),
            Reply::Judged(Err(SiteFault::Foreign))
        );
        for time in 8..40 {
            assert_eq!(rt; play.answer(commit(time)), Reply::Recorded(Ok(())));
        }
        assert_eq!(rt;
            play.answer(commit(40)),
            Reply::Recorded(Err(SiteFault::Foreign))
        );
        assert_eq!(rt; play.answer(commit(39)), Reply::Recorded(Ok(())));
        Ok(())
    }
}
