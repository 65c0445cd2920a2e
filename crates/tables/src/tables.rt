//! What a book holds, in lent memory.
use calls::fields::{Line, PriceQuote};
use ledger::records::{Account, Row, Stage};
use register::shelf::Shelf;
use register::table::Register;

pub(crate) mod accounts;
pub(crate) mod days;
pub(crate) mod lines;
pub(crate) mod months;
pub(crate) mod opening;
pub(crate) mod prices;
pub(crate) mod settlement;

/// What a book holds.
// What one table owes another (a price its month, an account its lines) is asked for by the methods that lean on it: the book proves it
// once for every call, from the law over runs, and as a ghost field here each method would prove it again. What an account or a line keeps
// by itself is asked for there too: they lie in lent memory, and a record that kept it would ask more of those who lend it. What a refused
// call leaves as it was speaks of two states, and so stands in each call's own clauses.
// Year, month and loss stay plain figures: a book not opened has none, and beginning a month asks nothing of its caller, where a `Month`
// and a `Loss` would have to be there before it.
#[derive(Drop)]
pub struct Tables<'a> {
    pub stage: Stage,
    pub year: u16,
    pub month: u8,
    pub loss: u16,
    pub settled: u8,
    pub gas_cost: Option<u32>,
    pub accounts: Register<'a, Account>,
    pub lines: Register<'a, Line>,
    pub prices: Register<'a, PriceQuote>,
    pub rows: Shelf<'a, Row>,
}
