// A table of records whose first ones are used. A slice and a number, and no vector: the tables are memory that is
// handed to each call.
ghost use Rattle.std.specs.Prelude.{◌≡◌, ◌+◌, ◌≤◌, length, take};
ghost use Rattle.terms.specs.Few.{few_list};
ghost use Rattle.site.specs.Tables.{at_place, replaced, written, Extends};

use terms::few::Few;

// The record at a place, if there is one.
pub fn get<X: Copy>(table: &[X], place: Option<usize>) -> Option<X>
    ensures { result ≡ at_place table.now place }
{
    table.get(place?).copied()
}

// Writes another record at a place, if there is one. The library's `get_mut` does not say which element it lends.
pub fn replace<X: Copy>(table: &mut [X], place: Option<usize>, x: X)
    ensures { table.new ≡ replaced table.old place x }
{
    if let Some(i) = place {
        if i < table.len() {
            table[i] = x;
        }
    }
}

// The used records.
pub fn front<X: Copy>(table: &[X], used: usize) -> &[X]
    ensures { result.now ≡ take used table.now }
{
    table.get(..used).unwrap_or(table)
}

// Writes some records from a place on, and answers the place behind them. Down the list as its definition goes: a loop
// would count the place.
fn write<X: Copy>(table: &mut [X], at: usize, more: Few<X>) -> usize
    requires { at + length (few_list more) ≤ length table.old }
    ensures count { result ≡ at + length (few_list more) }
    ensures did { table.new ≡ written table.old at (few_list more) }
{
    let Some((first, others)) = more.split_first() else {
        return at;
    };
    table[at] = first;
    write(table, at + 1, others)
}

// Writes up to four records behind the used ones if as many are free, and answers how many are used afterwards. A step
// is refused before, when it is decided, if too few are; so this is no refusal of its own.
pub fn append<X: Copy>(table: &mut [X], used: usize, more: Few<X>) -> usize
    ensures { Extends table.old used (few_list more) result table.new }
{
    if table.len() < used || table.len() - used < more.len() {
        return used;
    }
    write(table, used, more)
}
