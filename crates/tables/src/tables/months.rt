//! Months: which one it is, and how one begins.
ghost use Rattle.std.specs.Prelude.{◌≡◌, true, false};
ghost use Rattle.calls.specs.declared.fields.Call.TheVariants.{BeginMonth};
ghost use Rattle.tariff.specs.Calendar.{following};
ghost use Rattle.ledger.specs.Table.{is_unopened, is_closed, is_month};
ghost use Rattle.ledger.specs.Effects.{month_begun};
ghost use Rattle.ledger.specs.Ready.{Ready};
ghost use Rattle.tables.specs.States.{state_of, left_by, later_answer, Untouched};

use super::Tables;
use calls::fields::MonthBegin;
use calls::refusal::Refusal;
use ledger::records::Stage;
use tariff::calendar::Month;

impl<'a> Tables<'a> {
    /// The month that is open, or was closed last.
    // A call was matched on its stage before it asks for the month: that the book is open is asked for here and by each caller, as a type
    // for an open book would be a second one over the same tables.
    pub fn calendar_month(&self) -> Month
        requires ready { Ready (state_of self.now) }
        requires opened { is_unopened self.now.stage ≡ false }
        ensures year { result.year ≡ self.now.year }
        ensures number { result.number ≡ self.now.month }
    {
        Month::new(self.year, self.month).unwrap()
    }

    /// Begins a month: no prices, no gas cost, no day settled.
    pub fn begin_month(&mut self, c: &MonthBegin)
        ensures after { state_of self.new ≡ month_begun c.now (state_of self.old) }
    {
        self.stage = Stage::Between;
        self.year = c.year;
        self.month = c.month;
        self.loss = c.loss;
        self.settled = 0;
        self.gas_cost = None;
        self.prices.clear();
    }

    fn is_followed_by(&self, c: &MonthBegin) -> bool
        requires ready { Ready (state_of self.now) }
        requires opened { is_unopened self.now.stage ≡ false }
        ensures { result ≡ is_month c.now.year c.now.month (following self.now.year self.now.month) }
    {
        self.calendar_month()
            .next()
            .is_some_and(|next| next.year_and_number() == (c.year, c.month))
    }

    /// After a close only the following month is due.
    pub fn begin_next_month(&mut self, c: &MonthBegin) -> Result<usize, Refusal>
        requires ready { Ready (state_of self.old) }
        requires closed { is_closed self.old.stage ≡ true }
        ensures after { state_of self.new ≡ left_by (state_of self.old) (BeginMonth c.now) (month_begun c.now (state_of self.old)) }
        ensures answer { result ≡ later_answer (state_of self.old) (BeginMonth c.now) }
        ensures unchanged { Untouched result self.old self.new }
    {
        if !self.is_followed_by(c) {
            return Err(Refusal::NotDue);
        }
        self.begin_month(c);
        Ok(0)
    }
}
