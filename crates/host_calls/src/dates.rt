// The comparison of two dates. Plain numbers, since C asks and reads them.
ghost use Rattle.std.specs.Prelude.{◌≡◌};
ghost use Rattle.books.specs.Dates.{date_of};
ghost use Rattle.host_calls.specs.Calls.{dates_compared};

use books::date::Date;

fn date_of(year: u32, month: u32, day: u32) -> Option<Date>
    ensures { result ≡ date_of year month day }
{
    Date::try_from((year, month, day)).ok()
}

// 1 if the first date is earlier, 2 if the second is, 0 if neither is; a blank date is later than any other.
// 3 if a year is above 65,535, or a month or a day above 255.
#[unsafe(no_mangle)]
pub extern "C" fn cabinet_compare_dates(
    first_year: u32,
    first_month: u32,
    first_day: u32,
    second_year: u32,
    second_month: u32,
    second_day: u32,
) -> u32
    ensures { result ≡ dates_compared (date_of first_year first_month first_day) (date_of second_year second_month second_day) }
{
    let (Some(first), Some(second)) = (
        date_of(first_year, first_month, first_day),
        date_of(second_year, second_month, second_day),
    ) else {
        return 3;
    };
    if first.earlier_than(second) {
        1
    } else if second.earlier_than(first) {
        2
    } else {
        0
    }
}
