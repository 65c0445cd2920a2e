//! The rule for ordinary days: storage gives or takes within the day's maxima, and the rest is cashed out.
ghost use Rattle.tariff.specs.Ordinary.{ordinary};
ghost use Rattle.std.proofs.Common.{rules};

use crate::answer::Answer;
use crate::day_rule::DayRule;
use crate::question::Question;
use crate::tiers::Tiers;

#[derive(Clone, Copy, PartialEq, Eq, Debug)]
pub struct Ordinary {}

impl DayRule for Ordinary {
    ghost answers = { λ _ f. ordinary f };

    ghost keeps = { Prim.search rules };

    fn answer(&self, question: &Question) -> Answer {
        let f = question.figures();
        let injected = f.surplus().min(f.max_injection).min(f.free());
        let withdrawn = f.shortage().min(f.max_withdrawal).min(f.storage);
        Answer {
            injected,
            withdrawn,
            bought: Tiers::daily(f.max_withdrawal, f.shortage() - withdrawn),
            sold: Tiers::daily(f.max_injection, f.surplus() - injected),
            authorized: 0,
            unauthorized: 0,
        }
    }
}
