// The check of one script line. Plain numbers, since C asks and reads them.
ghost use Rattle.std.specs.Prelude.{◌≡◌, ◌==◌};
ghost use Rattle.host_calls.specs.Calls.{bad_field, line_check, has_form};

use books::date::Date;
use commands::command::Command;

fn bad_field<V: Copy>(told: Result<Command<V>, u32>) -> u32
    ensures { result ≡ bad_field told }
{
    told.err().unwrap_or(0)
}

// 0 if the line has a form of the book's script, else the number of its first bad field, from 1.
// Book 1 is the tally book, 2 the date book; any other has no form, so that field 1 is bad.
#[unsafe(no_mangle)]
#[tactic(auto, using(crate::proofs::Good::good))]
pub extern "C" fn cabinet_check_line(book: u32, line: &[u8]) -> u32
    ensures value { result ≡ line_check book line.now }
    ensures good { (result == 0) ≡ has_form book line.now }
{
    match book {
        1 => bad_field(Command::<u32>::of(line)),
        2 => bad_field(Command::<Date>::of(line)),
        _ => 1,
    }
}
