//! Lines: nominated, and shifted after the gas day.
ghost use Rattle.std.specs.Prelude.{◌≡◌, true};
ghost use Rattle.calls.specs.declared.fields.Call.TheVariants.{Nominate, Reallocate};
ghost use Rattle.calls.specs.Limits.{reallocation_within, named_lines};
ghost use Rattle.ledger.specs.Effects.{with_lines, put_line, put_lines};
ghost use Rattle.ledger.specs.Runs.{answer_by, after_by};
ghost use Rattle.tables.specs.States.{state_of, left_by, later_answer, shift_verdict, allowed_by, Untouched};

use super::Tables;
use calls::fields::{Line, Nomination, Reallocation};
use calls::refusal::Refusal;
use register::keyed::Keyed;
use shifts::accounts::{first_of_other_supplier, first_unknown};
use shifts::repeats::first_repeated;
use shifts::totals::first_changed;
use shifts::writes::{count_absent, put_all};

/// Nominations are taken until 1:00 P.M.
pub(crate) const NOMINATION_DEADLINE_MINUTE: u16 = 780;

/// Therms are shifted from 1:30 P.M.
pub(crate) const FIRST_SHIFT_MINUTE: u16 = 810;

/// Therms are shifted until 3:30 P.M.
pub(crate) const LAST_SHIFT_MINUTE: u16 = 930;

impl<'a> Tables<'a> {
    pub fn nominate(&mut self, c: &Nomination) -> Result<usize, Refusal>
        ensures after { state_of self.new ≡ left_by (state_of self.old) (Nominate c.now) (with_lines (put_line c.now.line (state_of self.old).lines) (state_of self.old)) }
        ensures answer { result ≡ later_answer (state_of self.old) (Nominate c.now) }
        ensures unchanged { Untouched result self.old self.new }
    {
        self.account(c.line.account)?;
        if self.lines.look(c.line.key()).is_none() && !self.lines.has_room(1) {
            return Err(Refusal::NoSpace);
        }
        if c.minute > NOMINATION_DEADLINE_MINUTE {
            return Err(Refusal::OutsideWindow);
        }
        self.lines.set(c.line).unwrap();
        Ok(0)
    }

    /// Refuses a reallocation by what comes after limits and stage, or allows it.
    fn check_shift(&self, supplier: u16, minute: u16, named: &[Line]) -> Result<(), Refusal>
        ensures { result ≡ allowed_by (shift_verdict (state_of self.now) supplier minute named.now) }
    {
        if let Some(account) = first_unknown(&self.accounts, named) {
            return Err(Refusal::NoAccount { account });
        }
        if let Some(line) = first_repeated(named) {
            return Err(Refusal::LineRepeated {
                account: line.account,
            });
        }
        if !self.lines.has_room(count_absent(&self.lines, named)) {
            return Err(Refusal::NoSpace);
        }
        if !(FIRST_SHIFT_MINUTE..=LAST_SHIFT_MINUTE).contains(&minute) {
            return Err(Refusal::OutsideWindow);
        }
        if let Some(line) = first_of_other_supplier(&self.accounts, supplier, named) {
            return Err(Refusal::OtherSupplier {
                account: line.account,
            });
        }
        if let Some(pipeline) = first_changed(&self.lines, named) {
            return Err(Refusal::TotalChanged { pipeline });
        }
        Ok(())
    }

    pub fn reallocate(&mut self, c: &Reallocation) -> Result<usize, Refusal>
        ensures after { state_of self.new ≡ left_by (state_of self.old) (Reallocate c.now) (with_lines (put_lines (named_lines c.now) (state_of self.old).lines) (state_of self.old)) }
        ensures answer { result ≡ later_answer (state_of self.old) (Reallocate c.now) }
        ensures unchanged { Untouched result self.old self.new }
    {
        let named = c.named_lines();
        self.check_shift(c.supplier, c.minute, named)?;
        put_all(&mut self.lines, named);
        Ok(0)
    }
}
