//! A month's close of all accounts. It takes prices, month and day as they are handed in; lines play no part, and readings stay.
ghost use Rattle.std.specs.Prelude.{◌≡◌, ◌+◌, ◌≤◌, true, refl, ◌++◌, map, length};
ghost use Rattle.tariff.specs.Each.{each};
ghost use Rattle.register.specs.Views.{held, room};
ghost use Rattle.ledger.specs.Terms.{closed_on, account_after_close, row_of_close, row_after_close};
ghost use Rattle.ledger.specs.Safety.{account_within};
ghost use Rattle.settling.specs.Terms.{terms_of_close};

use crate::lines::Ahead;
use crate::rows::closed_row;
use crate::walk::{Walk, inventory_of, walk_all};
use ledger::records::{Account, Row};
use register::shelf::Shelf;
use register::table::Register;
use tariff::calendar::{Date, Month};
use tariff::closing::close_month;
use tariff::prices::MonthPrices;

/// The close of a month, account by account; every row bears the one date.
#[derive(Clone, Copy)]
pub(crate) struct MonthEnd<'m> {
    month: &'m Month,
    date: Date,
    prices: &'m MonthPrices,
}

impl<'m> Walk for MonthEnd<'m> {
    ghost ready = { λ _ _ a. account_within a };

    ghost renewed = { λ m _ a. account_after_close (terms_of_close m.month.now m.date.day m.prices.now) a };

    ghost written = { λ m _ a. row_of_close m.date a (closed_on (terms_of_close m.month.now m.date.day m.prices.now) a) };

    ghost numbered = { λ _ _ _. refl };

    fn one(&self, _therms: u32, account: &mut Account) -> Row {
        let inventory = inventory_of(account);
        let close = close_month(self.month, &inventory, self.prices);
        let row = closed_row(self.date, account, &close);
        account.storage = close.storage_after;
        row
    }
}

/// Closes every account in its place, and adds a row for each, in their order. Rows are dated by that day of the month, past its end or not.
pub fn close_all(
    month: &Month,
    day: u8,
    prices: &MonthPrices,
    accounts: &mut Register<Account>,
    rows: &mut Shelf<Row>,
)
    requires accounts_within { each account_within (held accounts.old.shelf) ≡ true }
    requires space { length (held rows.old) + length (held accounts.old.shelf) ≤ room rows.old }
    ensures accounts { held accounts.new.shelf ≡ map (account_after_close (terms_of_close month.now day prices.now)) (held accounts.old.shelf) }
    ensures rows { held rows.new ≡ held rows.old ++ map (row_after_close (terms_of_close month.now day prices.now)) (held accounts.old.shelf) }
    ensures accounts_sized { room accounts.new.shelf ≡ room accounts.old.shelf }
    ensures rows_sized { room rows.new ≡ room rows.old }
{
    let (year, number) = month.year_and_number();
    let date = Date {
        year,
        month: number,
        day,
    };
    let month_end = MonthEnd {
        month,
        date,
        prices,
    };
    walk_all(&month_end, Ahead::none(), accounts, rows);
}
