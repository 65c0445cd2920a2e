//! A gas day of all accounts, under any day rule. It takes prices, loss and date as they are handed in, and never looks them up.
ghost use Rattle.std.specs.Prelude.{◌≡◌, ◌+◌, ◌≤◌, true, refl, ◌&&◌, ◌++◌, map, length, nat_le};
ghost use Rattle.tariff.specs.Each.{each};
ghost use Rattle.register.specs.Keys.{rising};
ghost use Rattle.register.specs.Views.{held, room};
ghost use Rattle.calls.specs.Limits.{line_within};
ghost use Rattle.ledger.specs.State.{line_key, standing, of_account};
ghost use Rattle.ledger.specs.Table.{has_reading};
ghost use Rattle.ledger.specs.Terms.{figures_on, account_after_day, row_after_day};
ghost use Rattle.ledger.specs.Safety.{account_within};
ghost use Rattle.settling.specs.Terms.{terms_of_day};

use crate::lines::Ahead;
use crate::rows::settled_row;
use crate::walk::{Walk, inventory_of, walk_all};
use calls::fields::Line;
use ledger::records::{Account, Row};
use register::shelf::Shelf;
use register::table::Register;
use tariff::day_rule::DayRule;
use tariff::question::Question;
use tariff::settling::{GasDay, settle_day};

/// The settling of a day, account by account; a reading goes with the day.
#[derive(Drop)]
pub(crate) struct Settlement<'r, 'd, R> {
    rule: &'r R,
    day: &'d GasDay,
}

impl<'r, 'd, R: DayRule> Walk for Settlement<'r, 'd, R> {
    ghost ready = { λ _ therms a. nat_le therms 8000000 && account_within a && has_reading a };

    ghost renewed = { λ s therms a. account_after_day (R.DayRule.answers s.rule.now) (terms_of_day s.day.now) therms a };

    ghost written = { λ s therms a. row_after_day (R.DayRule.answers s.rule.now) (terms_of_day s.day.now) therms a };

    ghost numbered = { λ _ _ _. refl };

    fn one(&self, therms: u32, account: &mut Account) -> Row {
        let used = account.reading.unwrap();
        let question = self
            .day
            .question(therms, used, &inventory_of(account))
            .unwrap();
        let settled = settle_day(self.rule, &question, &self.day.prices);
        let row = settled_row(self.day.date(), account, &question.figures(), &settled);
        account.storage = settled.storage_after;
        account.reading = None;
        row
    }
}

/// Settles every account in its place, and adds a row for each, in their order.
pub fn settle_all<R: DayRule>(
    rule: &R,
    day: &GasDay,
    lines: &[Line],
    accounts: &mut Register<Account>,
    rows: &mut Shelf<Row>,
)
    requires accounts_within { each account_within (held accounts.old.shelf) ≡ true }
    requires read { each has_reading (held accounts.old.shelf) ≡ true }
    requires deliverable { each (λ a. nat_le (standing (of_account a.number) lines.now) 8000000) (held accounts.old.shelf) ≡ true }
    requires lines_rise { rising line_key lines.now ≡ true }
    requires lines_within { each line_within lines.now ≡ true }
    requires space { length (held rows.old) + length (held accounts.old.shelf) ≤ room rows.old }
    ensures accounts { held accounts.new.shelf ≡ map (λ a. account_after_day (R.DayRule.answers rule.now) (terms_of_day day.now) (standing (of_account a.number) lines.now) a) (held accounts.old.shelf) }
    ensures rows { held rows.new ≡ held rows.old ++ map (λ a. row_after_day (R.DayRule.answers rule.now) (terms_of_day day.now) (standing (of_account a.number) lines.now) a) (held accounts.old.shelf) }
    ensures accounts_sized { room accounts.new.shelf ≡ room accounts.old.shelf }
    ensures rows_sized { room rows.new ≡ room rows.old }
{
    let settlement = Settlement { rule, day };
    walk_all(&settlement, Ahead::over(lines), accounts, rows);
}
