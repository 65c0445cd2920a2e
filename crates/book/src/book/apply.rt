//! The one call of the book, and its making.
ghost use Rattle.std.specs.Prelude.{◌≡◌, [], length};
ghost use Rattle.ledger.specs.Table.{ByTheTable};
ghost use Rattle.ledger.specs.Runs.{fresh_book, after, answered};
ghost use Rattle.ledger.specs.Law.{Upheld};
ghost use Rattle.ledger.specs.Ready.{Led};
ghost use Rattle.tables.specs.States.{both};
ghost use Rattle.book.specs.Books.{state_of, Untouched, LawGoesOn};

use super::Book;
use crate::decide::decide;
use calls::fields::{Call, Line, PriceQuote};
use calls::refusal::Refusal;
use ledger::records::{Account, Row};
use tables::rules::DayRules;
use tables::tables::Tables;
use tariff::day_rule::DayRule;

impl<'a> Book<'a> {
    /// An Unopened, empty book over lent memory, whatever that held.
    // The four kinds of memory stay apart here, and the two rules at `apply`: the face of the product keeps its signatures.
    pub fn new(
        accounts: &'a mut [Account],
        lines: &'a mut [Line],
        prices: &'a mut [PriceQuote],
        rows: &'a mut [Row],
    ) -> Self
        ensures state { state_of result ≡ fresh_book (length accounts.old) (length lines.old) (length prices.old) (length rows.old) }
        ensures law { Upheld [] (state_of result) }
    {
        let tables = Tables::new(accounts, lines, prices, rows);
        Book { tables }
    }

    /// Makes a call: answers how many rows it wrote, or refuses it and leaves the book as it was. A settling goes by the first rule on
    /// ordinary days and by the second on Critical Days.
    pub fn apply<O: DayRule, C: DayRule>(
        &mut self,
        call: &Call,
        ordinary: &O,
        critical: &C,
    ) -> Result<usize, Refusal>
        ensures after { state_of self.new ≡ after (both (O.DayRule.answers ordinary.now) (C.DayRule.answers critical.now)) (state_of self.old) call.now }
        ensures answer { result ≡ answered (state_of self.old) call.now }
        ensures table { ByTheTable (state_of self.old) call.now }
        ensures unchanged { Untouched result self.old self.new }
        ensures law { LawGoesOn (state_of self.old) call.now (both (O.DayRule.answers ordinary.now) (C.DayRule.answers critical.now)) result (state_of self.new) }
        ensures led { Led (state_of self.new) }
    {
        let rules = DayRules { ordinary, critical };
        decide(&mut self.tables, call, &rules)
    }
}
