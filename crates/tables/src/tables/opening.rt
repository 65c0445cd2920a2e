//! An empty book.
ghost use Rattle.std.specs.Prelude.{◌≡◌, length};
ghost use Rattle.ledger.specs.Runs.{fresh_book};
ghost use Rattle.tables.specs.States.{state_of};

use super::Tables;
use calls::fields::{Line, PriceQuote};
use ledger::records::{Account, Row, Stage};
use register::shelf::Shelf;
use register::table::Register;

impl<'a> Tables<'a> {
    // The four kinds of memory come apart, as the book is lent them.
    pub fn new(
        accounts: &'a mut [Account],
        lines: &'a mut [Line],
        prices: &'a mut [PriceQuote],
        rows: &'a mut [Row],
    ) -> Self
        ensures { state_of result ≡ fresh_book (length accounts.old) (length lines.old) (length prices.old) (length rows.old) }
    {
        let accounts = Register::new(accounts);
        let lines = Register::new(lines);
        let prices = Register::new(prices);
        let rows = Shelf::new(rows);
        Tables {
            stage: Stage::Unopened,
            year: 0,
            month: 0,
            loss: 0,
            settled: 0,
            gas_cost: None,
            accounts,
            lines,
            prices,
            rows,
        }
    }
}
