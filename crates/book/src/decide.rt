//! Each call is decided by the stage and the call together.
ghost use Rattle.std.specs.Prelude.{◌≡◌};
ghost use Rattle.ledger.specs.Runs.{after, answered};
ghost use Rattle.ledger.specs.Ready.{Ready};
ghost use Rattle.tables.specs.States.{state_of, both, Untouched};

use calls::fields::Call;
use calls::limits::Limited;
use calls::refusal::Refusal;
use ledger::records::Stage;
use tables::rules::DayRules;
use tables::tables::Tables;
use tariff::day_rule::DayRule;

/// Takes a call, or refuses it and changes nothing.
pub(crate) fn decide<O: DayRule, C: DayRule>(
    tables: &mut Tables,
    call: &Call,
    rules: &DayRules<O, C>,
) -> Result<usize, Refusal>
    requires { Ready (state_of tables.old) }
    ensures after { state_of tables.new ≡ after (both (O.DayRule.answers rules.now.ordinary.now) (C.DayRule.answers rules.now.critical.now)) (state_of tables.old) call.now }
    ensures answer { result ≡ answered (state_of tables.old) call.now }
    ensures unchanged { Untouched result tables.old tables.new }
{
    if !call.within_limits() {
        return Err(Refusal::OutsideLimits);
    }
    match (tables.stage, call) {
        (Stage::Unopened, Call::BeginMonth(c)) => {
            tables.begin_month(c);
            Ok(0)
        }
        (Stage::Closed, Call::BeginMonth(c)) => tables.begin_next_month(c),
        (Stage::Between, Call::OpenAccount(c)) => tables.open_account(c),
        (Stage::Between, Call::MoveAccount(c)) => tables.move_account(c),
        (Stage::Between | Stage::Nominating(_) | Stage::Ended(_), Call::SetGasCost(c)) => {
            tables.set_gas_cost(c)
        }
        (Stage::Between | Stage::Nominating(_) | Stage::Ended(_), Call::SetPrice(c)) => {
            tables.set_price(c)
        }
        (Stage::Between, Call::BeginDay(c)) => tables.begin_day(c),
        (Stage::Nominating(_), Call::Nominate(c)) => tables.nominate(c),
        (Stage::Nominating(kind), Call::EndDay(_)) => {
            tables.stage = Stage::Ended(kind);
            Ok(0)
        }
        (Stage::Ended(_), Call::Read(c)) => tables.take_reading(c),
        (Stage::Ended(_), Call::Reallocate(c)) => tables.reallocate(c),
        (Stage::Ended(kind), Call::Settle(_)) => tables.settle(kind, rules),
        (Stage::Between, Call::Close(_)) => tables.close(),
        _ => Err(Refusal::WrongStage),
    }
}
