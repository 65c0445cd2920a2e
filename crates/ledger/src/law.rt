//! The law over every run.
ghost use Rattle.ledger.specs.Claim.{LawOverRuns, SuppliersBelow};
ghost use Rattle.ledger.specs.Safety.{SafeOverRuns};

/// Answers the number below which every row's supplier lies, and promises the law: whatever calls came since the book was made, refused
/// ones among them, and whatever lawful day rules settled its days, every account's therms balance; every settled day has each supplier's
/// total on each pipeline as it stood nominated when the gas day ended; storage is within capacity; each row is its supplier's, counted in
/// one statement; and all statements come to all rows' cents. Also that all stays safe: keys rise, tables fit their room, therms and cents
/// keep their bounds, and every settled day has its price, so that a close finds all.
pub fn law_over_runs() -> u32
    ensures suppliers { SuppliersBelow result }
    ensures law { LawOverRuns }
    ensures safe { SafeOverRuns }
{
    65_536
}
