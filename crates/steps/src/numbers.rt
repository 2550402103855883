// The numbers of a site and of the sitting that a step reads and changes.
ghost use Rattle.std.specs.Prelude.{◌≡◌, ◌-◌, length};
ghost use Rattle.steps.specs.Numbers.{stopped};

use carrier::carrier::Carrier;

// A site's counter, and how many of its line and verdict records are used.
#[derive(Clone, Copy, Debug, PartialEq, Eq)]
pub struct Used {
    pub counter: u32,
    pub lines: usize,
    pub verdicts: usize,
}

// How many transactions the sitting has started, and how many messages were put and delivered.
#[derive(Clone, Copy, Debug, PartialEq, Eq)]
pub struct Counts {
    pub started: usize,
    pub put: u32,
    pub delivered: u32,
}

// Both, as a step takes and answers them.
#[derive(Clone, Copy, Debug, PartialEq, Eq)]
pub struct Numbers {
    pub used: Used,
    pub counts: Counts,
}

// A count of messages after some more.
pub(crate) fn add(count: u32, more: usize) -> u32
    ensures { result ≡ stopped count more }
{
    (count as usize).saturating_add(more).min(1_000_000_000) as u32
}

// The count of messages put, where so many waited before some were put.
pub(crate) fn put_since<V: Copy, C: Carrier<V>>(carrier: &C, before: usize, put: u32) -> u32
    ensures { result ≡ stopped put (length (C.Carrier.queue carrier.now).waiting - before) }
{
    add(put, carrier.count().saturating_sub(before))
}
