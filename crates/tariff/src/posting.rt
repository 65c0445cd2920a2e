//! The posting layer: over any day rule, and a day rule itself.
ghost use Rattle.std.specs.Prelude.{◌≡◌, ◌-◌, ◌≤◌, true, cond, slice_set};
ghost use Rattle.std.proofs.Common.{rules};
ghost use Rattle.tariff.specs.Each.{each};
ghost use Rattle.tariff.specs.Figures.{with_maxima};
ghost use Rattle.tariff.specs.Postings.{no_postings, in_capacity, postable, post_on, posting_on, as_posted};
ghost use Rattle.tariff.specs.Posted.{posting_high, under_fair, keeps_under};

use crate::answer::Answer;
use crate::day_rule::DayRule;
use crate::published::{HUNDREDTHS, Maxima};
use crate::question::{Figures, LAST_DAY, Question};

/// Most that can be posted, in hundredths of a percent: all of capacity.
pub const MAX_POSTING: u16 = HUNDREDTHS;

/// A day's posted maxima, in hundredths of a percent of capacity.
#[derive(Clone, Copy)]
pub(crate) struct Posting {
    maxima: Maxima<u16>,
}

/// Why nothing was posted.
#[derive(Clone, Copy, PartialEq, Eq, Debug)]
pub enum PostingError {
    OutsideLimits,
}

/// A posting, or none, for each of thirty-one day numbers.
#[derive(Clone, Copy)]
pub(crate) struct Postings {
    table: [Option<Posting>; 31],
}

impl Postings {
    fn none() -> Postings
        ensures { result.table ≡ no_postings }
    {
        Postings { table: [None; 31] }
    }

    fn on(&self, day: u8) -> Option<Posting>
        requires { (1 ≤ day) × (day ≤ 31) }
        ensures { result ≡ posting_on day self.now.table }
    {
        self.table[usize::from(day) - 1]
    }

    fn set(&mut self, day: u8, posting: Posting)
        requires { (1 ≤ day) × (day ≤ 31) }
        ensures { self.new.table ≡ slice_set self.old.table (day - 1) (Some posting) }
    {
        self.table[usize::from(day) - 1] = Some(posting);
    }
}

impl Question {
    /// The same question with other maxima.
    pub(crate) fn with_maxima(&self, maxima: Maxima<u32>) -> Question
        requires { (maxima.injection ≤ self.now.figures.capacity) × (maxima.withdrawal ≤ self.now.figures.capacity) }
        ensures { result.figures ≡ with_maxima maxima.injection maxima.withdrawal self.now.figures }
    {
        let figures = Figures {
            max_injection: maxima.injection,
            max_withdrawal: maxima.withdrawal,
            ..self.figures
        };
        Question { figures }
    }
}

/// Any day rule, with posted maxima in place of the published ones on posted days.
#[derive(Drop)]
pub struct PostingLayer<R> {
    rule: R,
    postings: Postings,
    ghost limits: { each in_capacity postings.table ≡ true },
}

impl<R> PostingLayer<R> {
    /// The layer over a rule, with nothing posted.
    pub fn over(rule: R) -> PostingLayer<R>
        ensures rule { result.rule ≡ rule }
        ensures table { result.postings.table ≡ no_postings }
    {
        PostingLayer {
            rule,
            postings: Postings::none(),
        }
    }

    /// Posts a day's maxima, in place of what was posted for it before; outside the limits it posts nothing.
    #[tactic(auto, using(crate::specs::EachLemmas::each_set))]
    pub fn post(
        &mut self,
        day: u8,
        max_injection: u16,
        max_withdrawal: u16,
    ) -> Result<(), PostingError>
        ensures answer { result ≡ cond (postable day max_injection max_withdrawal) (Ok tt) (Err PostingError.OutsideLimits) }
        ensures table { self.new.postings.table ≡ post_on day max_injection max_withdrawal self.old.postings.table }
        ensures rule { self.new.rule ≡ self.old.rule }
    {
        let postable = (1..=LAST_DAY).contains(&day)
            && max_injection <= MAX_POSTING
            && max_withdrawal <= MAX_POSTING;
        if !postable {
            return Err(PostingError::OutsideLimits);
        }
        let maxima = Maxima {
            injection: max_injection,
            withdrawal: max_withdrawal,
        };
        let posting = Posting { maxima };
        self.postings.set(day, posting);
        Ok(())
    }

    /// Takes every posting away.
    pub fn clear(&mut self)
        ensures table { self.new.postings.table ≡ no_postings }
        ensures rule { self.new.rule ≡ self.old.rule }
    {
        self.postings = Postings::none();
    }
}

impl<R: DayRule> DayRule for PostingLayer<R> {
    ghost answers = { λ l f. R.DayRule.answers l.rule (as_posted l.postings.table f) };

    ghost keeps = { Prim.search (rules, R.DayRule.keeps, posting_high, under_fair, keeps_under) };

    fn answer(&self, question: &Question) -> Answer {
        let f = question.figures();
        let Some(posting) = self.postings.on(f.day) else {
            return self.rule.answer(question);
        };
        let maxima = posting.maxima.of(f.capacity);
        let posted = question.with_maxima(maxima);
        self.rule.answer(&posted)
    }
}
