// Cases of the books at the borders of their rules, worked out by hand.
#![tactic(auto)]

#[cfg(test)]
mod tests {
    use book::rules::RuleBook;
    use books::date::{Date, Dates};
    use books::tally::Tally;
    use terms::few::Few;

    // A rule, its argument and the values read; then the values to write, or the book's code, a number as the rules
    // have it.
    #[derive(Clone, Copy)]
    struct Case<V>(u32, V, Few<V>, Result<Few<V>, u32>);

    const BLANK: Date = Date::BLANK;

    const UNLAWFUL: Date = Date {
        year: 1600,
        month: 2,
        day: 30,
    };

    const FEBRUARY: Date = Date {
        year: 1600,
        month: 2,
        day: 29,
    };

    const MARCH: Date = Date {
        year: 1600,
        month: 3,
        day: 1,
    };

    const DECEMBER: Date = Date {
        year: 1600,
        month: 12,
        day: 31,
    };

    const NEXT_YEAR: Date = Date {
        year: 1601,
        month: 1,
        day: 1,
    };

    // The place of the first case that a book answers otherwise.
    fn first_wrong<B: RuleBook>(book: &B, cases: &[Case<B::Value>]) -> Option<usize>
    where
        B::Value: PartialEq,
    {
        cases.iter().position(|Case(rule, argument, read, expected)| {
            let answer = book.run(*rule, *argument, *read);
            answer.map_err(|fault| fault.code) != *expected
        })
    }

    #[test]
    fn tally_answers(rt: HostRuntime) {
        const CASES: [Case<u32>; 25] = [
            Case(1, 999_999, Few::Nothing, Ok(Few::One(999_999))),
            Case(1, 1_000_000, Few::Nothing, Err(3)),
            Case(1, 0, Few::One(7), Ok(Few::One(0))),
            Case(2, 1, Few::One(999_998), Ok(Few::One(999_999))),
            Case(2, 1, Few::One(999_999), Err(1)),
            Case(2, 1, Few::One(u32::MAX), Err(1)),
            Case(2, 5, Few::Nothing, Ok(Few::One(5))),
            Case(2, 1_000_000, Few::One(u32::MAX), Err(3)),
            Case(3, 5, Few::Two(5, 0), Ok(Few::Two(0, 5))),
            Case(3, 6, Few::Two(5, 0), Err(2)),
            Case(3, 6, Few::Two(5, 999_999), Err(2)),
            Case(3, 1, Few::Two(1, 999_999), Err(1)),
            Case(3, 0, Few::Two(1_000_000, 0), Err(1)),
            Case(3, 1, Few::Two(1_000_000, 0), Ok(Few::Two(999_999, 1))),
            Case(3, 1_000_000, Few::Two(0, 0), Err(3)),
            Case(3, 1, Few::Nothing, Err(2)),
            Case(3, 4, Few::One(4), Ok(Few::Two(0, 4))),
            Case(3, 1, Few::Two(5, u32::MAX), Err(1)),
            Case(4, 0, Few::Two(400_000, 599_999), Ok(Few::One(999_999))),
            Case(4, 0, Few::Two(500_000, 500_000), Err(1)),
            Case(4, 0, Few::Two(u32::MAX, 1), Err(1)),
            Case(4, 1_000_000, Few::Two(1, 2), Err(3)),
            Case(4, 999_999, Few::Three(1, 2, 3), Ok(Few::One(3))),
            Case(0, 1_000_000, Few::Nothing, Err(0)),
            Case(5, 0, Few::Two(1, 2), Err(0)),
        ];
        assert_eq!(rt; first_wrong(&Tally, &CASES), None);
    }

    #[test]
    fn date_answers(rt: HostRuntime) {
        const CASES: [Case<Date>; 22] = [
            Case(1, MARCH, Few::One(NEXT_YEAR), Ok(Few::One(MARCH))),
            Case(2, MARCH, Few::One(BLANK), Ok(Few::One(MARCH))),
            Case(2, MARCH, Few::Nothing, Ok(Few::One(MARCH))),
            Case(2, FEBRUARY, Few::One(MARCH), Ok(Few::One(MARCH))),
            Case(2, BLANK, Few::One(MARCH), Ok(Few::One(MARCH))),
            Case(2, UNLAWFUL, Few::One(MARCH), Err(3)),
            Case(3, FEBRUARY, Few::One(MARCH), Ok(Few::One(FEBRUARY))),
            Case(3, MARCH, Few::One(FEBRUARY), Ok(Few::One(FEBRUARY))),
            Case(3, DECEMBER, Few::One(NEXT_YEAR), Ok(Few::One(DECEMBER))),
            Case(3, MARCH, Few::One(MARCH), Ok(Few::One(MARCH))),
            Case(3, MARCH, Few::One(BLANK), Ok(Few::One(MARCH))),
            Case(3, BLANK, Few::One(MARCH), Ok(Few::One(MARCH))),
            Case(3, BLANK, Few::Nothing, Ok(Few::One(BLANK))),
            Case(4, BLANK, Few::Two(FEBRUARY, MARCH), Ok(Few::Nothing)),
            Case(4, BLANK, Few::Two(MARCH, FEBRUARY), Err(5)),
            Case(4, BLANK, Few::Two(MARCH, MARCH), Ok(Few::Nothing)),
            Case(4, BLANK, Few::Two(BLANK, FEBRUARY), Ok(Few::Nothing)),
            Case(4, BLANK, Few::Two(MARCH, BLANK), Ok(Few::Nothing)),
            Case(4, BLANK, Few::One(MARCH), Ok(Few::Nothing)),
            Case(4, UNLAWFUL, Few::Two(MARCH, FEBRUARY), Err(3)),
            Case(0, UNLAWFUL, Few::Two(MARCH, FEBRUARY), Err(0)),
            Case(5, MARCH, Few::Nothing, Err(0)),
        ];
        assert_eq!(rt; first_wrong(&Dates, &CASES), None);
    }

    #[test]
    fn lawful_dates(rt: HostRuntime) {
        const CASES: [(u16, u8, u8, bool); 16] = [
            (0, 0, 0, true),
            (1500, 1, 1, true),
            (1999, 12, 31, true),
            (1499, 12, 31, false),
            (2000, 1, 1, false),
            (1500, 2, 29, true),
            (1999, 2, 29, true),
            (1600, 2, 30, false),
            (1900, 4, 30, true),
            (1900, 4, 31, false),
            (1900, 8, 31, true),
            (1900, 8, 32, false),
            (1900, 13, 1, false),
            (1900, 0, 1, false),
            (1900, 1, 0, false),
            (0, 1, 1, false),
        ];
        for (i, (year, month, day, lawful)) in CASES.iter().copied().enumerate() {
            let date = Date { year, month, day };
            assert_eq!(rt; date.is_lawful(), lawful, "{}", i);
            assert_eq!(rt; Dates.run(1, date, Few::Nothing).is_ok(), lawful, "{}", i);
        }
    }

    #[test]
    fn dates_of_numbers(rt: HostRuntime) {
        let greatest = Date {
            year: 65_535,
            month: 255,
            day: 255,
        };
        assert_eq!(rt; Date::try_from((1600, 2, 29)), Ok(FEBRUARY));
        assert_eq!(rt; Date::try_from((65_535, 255, 255)), Ok(greatest));
        assert!(rt; Date::try_from((65_536, 0, 0)).is_err());
        assert!(rt; Date::try_from((0, 256, 0)).is_err());
        assert!(rt; Date::try_from((0, 0, 256)).is_err());
    }
}
