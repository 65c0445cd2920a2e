//! Settling the gas day, and closing the month.
ghost use Rattle.std.specs.Prelude.{◌≡◌, ◌+◌, ◌≤◌, min, true, false, not, length, is_some};
ghost use Rattle.std.specs.Option.{option_map};
ghost use Rattle.tariff.specs.Each.{each};
ghost use Rattle.tariff.specs.Options.{when};
ghost use Rattle.tariff.specs.Prices.{average};
ghost use Rattle.register.specs.Views.{held, room};
ghost use Rattle.calls.specs.declared.fields.Call.TheVariants.{Settle, Close};
ghost use Rattle.calls.specs.Limits.{is_price};
ghost use Rattle.ledger.specs.declared.records.Stage.TheVariants.{Between, Ended};
ghost use Rattle.ledger.specs.State.{amount, days_of};
ghost use Rattle.ledger.specs.Rows.{index_total};
ghost use Rattle.ledger.specs.Table.{is_unopened, has_reading, no_room, unpriced};
ghost use Rattle.ledger.specs.Terms.{day_terms, day_settled_by};
ghost use Rattle.ledger.specs.Effects.{settled_day, month_closed};
ghost use Rattle.ledger.specs.Ready.{Ready, no_day};
ghost use Rattle.settling.specs.Terms.{terms_of_day};
ghost use Rattle.tables.specs.States.{both, state_of, left_by, later_answer, Untouched};

use super::Tables;
use crate::rules::DayRules;
use calls::refusal::Refusal;
use ledger::records::{DayKind, Stage};
use settling::close::close_all;
use settling::day::settle_all;
use settling::prices::average_index;
use settling::readings::first_unread;
use tariff::calendar::Month;
use tariff::day_rule::DayRule;
use tariff::loss::Loss;
use tariff::prices::{DayPrices, MonthPrices, Price};
use tariff::settling::GasDay;

/// A journal has at most so many rows, whatever was lent.
pub(crate) const MAX_ROWS: usize = 1_000_000;

/// A price that is known to be within its limit.
// A conversion by a function: `From` could not ask for the limit, and `TryFrom` would be unwrapped in four places.
fn price_of(hundredths: u32) -> Price
    requires { is_price hundredths ≡ true }
    ensures { result.hundredths ≡ hundredths }
{
    Price::new(hundredths).unwrap()
}

impl<'a> Tables<'a> {
    /// Whether the journal takes so many rows more; what adds nothing always fits.
    fn has_room_for_rows(&self, count: usize) -> bool
        ensures { result ≡ not (no_room (length (held self.now.rows)) count (min (room self.now.rows) 1000000)) }
    {
        count == 0
            || (self.rows.has_room(count) && count <= MAX_ROWS.saturating_sub(self.rows.len()))
    }

    /// The day begun, with what it is settled by; none where the gas cost or the day's price is missing.
    fn gas_day(&self) -> Option<GasDay>
        requires ready { Ready (state_of self.now) }
        requires begun { no_day self.now.stage ≡ false }
        ensures { option_map terms_of_day result ≡ when (not (unpriced (state_of self.now))) (day_terms (state_of self.now)) }
    {
        let gas_cost = self.gas_cost?;
        let price = self.prices.look(u64::from(self.settled + 1))?;
        Some(GasDay {
            month: self.calendar_month(),
            day: self.settled + 1,
            loss: Loss::new(self.loss).unwrap(),
            prices: DayPrices {
                gas_cost: price_of(gas_cost),
                index: price_of(price.index),
                market: price_of(price.market),
            },
        })
    }

    pub fn settle<O: DayRule, C: DayRule>(
        &mut self,
        kind: DayKind,
        rules: &DayRules<O, C>,
    ) -> Result<usize, Refusal>
        requires ready { Ready (state_of self.old) }
        requires ended { self.old.stage ≡ Ended kind }
        ensures after { state_of self.new ≡ left_by (state_of self.old) (Settle (record {})) (settled_day (both (O.DayRule.answers rules.now.ordinary.now) (C.DayRule.answers rules.now.critical.now)) (state_of self.old)) }
        ensures answer { result ≡ later_answer (state_of self.old) (Settle (record {})) }
        ensures unchanged { Untouched result self.old self.new }
    {
        let count = self.accounts.all().len();
        if !self.has_room_for_rows(count) {
            return Err(Refusal::NoSpace);
        }
        let day = self.gas_day().ok_or(Refusal::PriceMissing)?;
        if let Some(account) = first_unread(self.accounts.all()) {
            return Err(Refusal::ReadingMissing {
                account: account.number,
            });
        }
        // Two rules of two types: one value for both would be a `dyn`, and no plainer.
        match kind {
            DayKind::Ordinary => self.settle_by(rules.ordinary, &day),
            DayKind::Critical => self.settle_by(rules.critical, &day),
        }
        Ok(count)
    }

    /// Settles every account by a rule; lines and readings go, and the day is settled.
    fn settle_by<R: DayRule>(&mut self, rule: &R, day: &GasDay)
        requires ready { Ready (state_of self.old) }
        requires begun { no_day self.old.stage ≡ false }
        requires day { terms_of_day day.now ≡ day_terms (state_of self.old) }
        requires read { each has_reading (held self.old.accounts.shelf) ≡ true }
        requires space { length (held self.old.rows) + length (held self.old.accounts.shelf) ≤ room self.old.rows }
        ensures { state_of self.new ≡ day_settled_by (R.DayRule.answers rule.now) (state_of self.old) }
    {
        settle_all(
            rule,
            day,
            self.lines.all(),
            &mut self.accounts,
            &mut self.rows,
        );
        self.lines.clear();
        self.settled += 1;
        self.stage = Stage::Between;
    }

    /// What prices the month's close.
    fn month_prices(&self, month: &Month) -> MonthPrices
        requires ready { Ready (state_of self.now) }
        requires days { month.now.year ≡ self.now.year }
        requires month { month.now.number ≡ self.now.month }
        requires priced { is_some self.now.gas_cost ≡ true }
        ensures gas_cost { result.gas_cost.hundredths ≡ amount self.now.gas_cost }
        ensures average { result.average_index.hundredths ≡ average (index_total (state_of self.now).prices) (days_of (state_of self.now)) }
    {
        MonthPrices {
            gas_cost: price_of(self.gas_cost.unwrap()),
            average_index: average_index(self.prices.all(), month.days()),
        }
    }

    pub fn close(&mut self) -> Result<usize, Refusal>
        requires ready { Ready (state_of self.old) }
        requires between { self.old.stage ≡ Between }
        ensures after { state_of self.new ≡ left_by (state_of self.old) (Close (record {})) (month_closed (state_of self.old)) }
        ensures answer { result ≡ later_answer (state_of self.old) (Close (record {})) }
        ensures unchanged { Untouched result self.old self.new }
    {
        let written = self.accounts.all().len();
        if !self.has_room_for_rows(written) {
            return Err(Refusal::NoSpace);
        }
        let month = self.calendar_month();
        if self.settled != month.days() {
            return Err(Refusal::NotDue);
        }
        let prices = self.month_prices(&month);
        close_all(
            &month,
            month.days(),
            &prices,
            &mut self.accounts,
            &mut self.rows,
        );
        self.stage = Stage::Closed;
        Ok(written)
    }
}
