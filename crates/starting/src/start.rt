// What is asked of a site at a start, and what it may use.
use terms::few::Few;

// A rule with its argument and its cards, in line order, at the site where it is started.
#[derive(Clone, Copy, Debug, PartialEq, Eq)]
pub struct Order<V> {
    pub origin: u32,
    // any number; whether there is such a rule is for the book to say
    pub rule: u32,
    pub argument: V,
    pub cards: Few<u32>,
}

// The site's counter, how many transactions the sitting has started, how many line records the site has free, and how
// many places the carrier has.
#[derive(Clone, Copy, Debug, PartialEq, Eq)]
pub struct Room {
    pub counter: u32,
    pub started: usize,
    pub lines: usize,
    pub places: usize,
}
