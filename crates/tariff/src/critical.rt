//! The rule for Critical Days: a shortage may lean on storage and the Company up to the day's right.
ghost use Rattle.tariff.specs.Critical.{critical};
ghost use Rattle.std.proofs.Common.{rules};

use crate::answer::Answer;
use crate::day_rule::DayRule;
use crate::published::part_of;
use crate::question::Question;
use crate::tiers::Tiers;

#[derive(Clone, Copy, PartialEq, Eq, Debug)]
pub struct Critical {}

impl DayRule for Critical {
    ghost answers = { λ _ f. critical f };

    ghost keeps = { Prim.search rules };

    fn answer(&self, question: &Question) -> Answer {
        let f = question.figures();
        let right = part_of::<1_000>(f.capacity, 17);
        let injected = f.surplus().min(f.free());
        let withdrawn = f.shortage().min(f.storage).min(right);
        let authorized = (f.shortage() - withdrawn).min(right - withdrawn);
        Answer {
            injected,
            withdrawn,
            bought: Tiers::first_only(0),
            sold: Tiers::first_only(f.surplus() - injected),
            authorized,
            unauthorized: f.shortage() - withdrawn - authorized,
        }
    }
}
