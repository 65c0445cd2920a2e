//! The day rule: where an account's surplus goes, and what covers its shortage.
ghost use Rattle.std.specs.Prelude.{◌≡◌, true};
ghost use Rattle.tariff.specs.declared.question.Figures.{Figures};
ghost use Rattle.tariff.specs.declared.answer.Answer.{Answer};
ghost use Rattle.tariff.specs.Figures.{fair};
ghost use Rattle.tariff.specs.Keeps.{Keeps};

use crate::answer::Answer;
use crate::question::Question;

/// A rule answers every question, is not altered by answering, and keeps the law of day rules.
pub trait DayRule {
    // The rule's meaning: its answer, as a function of what it holds and what it is given.
    ghost answers: { Self → Figures → Answer };

    fn answer(&self, question: &Question) -> Answer
        ensures { result ≡ answers self.now question.now.figures };

    // What every rule owes.
    ghost keeps: { (s : Self) (f : Figures) → fair f ≡ true → Keeps f (answers s f) };
}
