//! A day rule of another maker: it leaves storage alone, and keeps the law of day rules.
ghost use Rattle.std.specs.Prelude.{◌≡◌};
ghost use Rattle.tariff.specs.Tiers.{tiers};
ghost use Rattle.months.specs.CashOnly.{cash_only};
ghost use Rattle.std.proofs.Common.{rules};

use tariff::answer::Answer;
use tariff::day_rule::DayRule;
use tariff::question::Question;
use tariff::tiers::Tiers;

/// All therms in the third tier.
fn third_only(therms: u32) -> Tiers<u32>
    ensures { result ≡ tiers 0 0 therms }
{
    Tiers {
        first: 0,
        second: 0,
        third: therms,
    }
}

/// A surplus is sold and a shortage bought, all in the third tier.
#[derive(Clone, Copy)]
pub struct CashOnly {}

impl DayRule for CashOnly {
    ghost answers = { λ _ f. cash_only f };

    ghost keeps = { Prim.search rules };

    fn answer(&self, question: &Question) -> Answer {
        let f = question.figures();
        Answer {
            injected: 0,
            withdrawn: 0,
            bought: third_only(f.used.saturating_sub(f.delivered)),
            sold: third_only(f.delivered.saturating_sub(f.used)),
            authorized: 0,
            unauthorized: 0,
        }
    }
}
