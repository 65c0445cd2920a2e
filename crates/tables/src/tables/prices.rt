//! The gas cost and the days' prices.
ghost use Rattle.std.specs.Prelude.{◌≡◌, false};
ghost use Rattle.register.specs.Keys.{put};
ghost use Rattle.calls.specs.declared.fields.Call.TheVariants.{SetGasCost, SetPrice};
ghost use Rattle.ledger.specs.State.{price_day};
ghost use Rattle.ledger.specs.Table.{is_unopened};
ghost use Rattle.ledger.specs.Effects.{with_gas_cost, with_prices};
ghost use Rattle.ledger.specs.Ready.{Ready};
ghost use Rattle.tables.specs.States.{state_of, left_by, later_answer, Untouched};

use super::Tables;
use calls::fields::{GasCost, PriceQuote};
use calls::refusal::Refusal;

impl<'a> Tables<'a> {
    pub fn set_gas_cost(&mut self, c: &GasCost) -> Result<usize, Refusal>
        ensures after { state_of self.new ≡ left_by (state_of self.old) (SetGasCost c.now) (with_gas_cost c.now.gas_cost (state_of self.old)) }
        ensures answer { result ≡ later_answer (state_of self.old) (SetGasCost c.now) }
        ensures unchanged { Untouched result self.old self.new }
    {
        if self.gas_cost.is_some() {
            return Err(Refusal::GasCostGiven);
        }
        self.gas_cost = Some(c.gas_cost);
        Ok(0)
    }

    pub fn set_price(&mut self, c: &PriceQuote) -> Result<usize, Refusal>
        requires ready { Ready (state_of self.old) }
        requires opened { is_unopened self.old.stage ≡ false }
        ensures after { state_of self.new ≡ left_by (state_of self.old) (SetPrice c.now) (with_prices (put price_day c.now (state_of self.old).prices) (state_of self.old)) }
        ensures answer { result ≡ later_answer (state_of self.old) (SetPrice c.now) }
        ensures unchanged { Untouched result self.old self.new }
    {
        if self.prices.look(u64::from(c.day)).is_some() {
            return Err(Refusal::PriceGiven { day: c.day });
        }
        if !self.prices.has_room(1) {
            return Err(Refusal::NoSpace);
        }
        if c.day > self.calendar_month().days() {
            return Err(Refusal::NotDue);
        }
        self.prices.set(*c).unwrap();
        Ok(0)
    }
}
