// The records of one site, lent for a question: its used lines and verdicts beside the declared cards.
use records::card::CardTable;
use records::line::Line;
use records::verdict::Verdict;

#[derive(Clone, Copy)]
pub struct View<'a, V> {
    pub table: CardTable<'a, V>,
    pub lines: &'a [Line<V>],
    pub verdicts: &'a [Verdict],
}
