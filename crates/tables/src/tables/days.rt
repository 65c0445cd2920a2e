//! How a gas day begins.
ghost use Rattle.std.specs.Prelude.{◌≡◌, ◌+◌, true, false, ◌&&◌, ◌==◌, nat_le};
ghost use Rattle.tariff.specs.Calendar.{days_in};
ghost use Rattle.calls.specs.declared.fields.Call.TheVariants.{BeginDay};
ghost use Rattle.calls.specs.Limits.{day_begin_within};
ghost use Rattle.ledger.specs.declared.records.Stage.TheVariants.{Nominating};
ghost use Rattle.ledger.specs.Table.{is_unopened};
ghost use Rattle.ledger.specs.Effects.{with_stage, kind_of};
ghost use Rattle.ledger.specs.Ready.{Ready};
ghost use Rattle.tables.specs.States.{state_of, left_by, later_answer, Untouched};

use super::Tables;
use calls::fields::DayBegin;
use calls::refusal::Refusal;
use ledger::records::{DayKind, Stage};

impl<'a> Tables<'a> {
    fn is_next_day(&self, day: u8) -> bool
        requires ready { Ready (state_of self.now) }
        requires opened { is_unopened self.now.stage ≡ false }
        ensures { result ≡ (day == self.now.settled + 1 && nat_le day (days_in self.now.year self.now.month)) }
    {
        day == self.settled + 1 && day <= self.calendar_month().days()
    }

    pub fn begin_day(&mut self, c: &DayBegin) -> Result<usize, Refusal>
        requires ready { Ready (state_of self.old) }
        requires opened { is_unopened self.old.stage ≡ false }
        requires limits { day_begin_within c.now ≡ true }
        ensures after { state_of self.new ≡ left_by (state_of self.old) (BeginDay c.now) (with_stage (Nominating (kind_of c.now.kind)) (state_of self.old)) }
        ensures answer { result ≡ later_answer (state_of self.old) (BeginDay c.now) }
        ensures unchanged { Untouched result self.old self.new }
    {
        if !self.is_next_day(c.day) {
            return Err(Refusal::NotDue);
        }
        let kind = DayKind::try_from(c.kind).unwrap();
        if kind == DayKind::Critical && !self.calendar_month().in_critical_season() {
            return Err(Refusal::OutOfSeason);
        }
        self.stage = Stage::Nominating(kind);
        Ok(0)
    }
}
