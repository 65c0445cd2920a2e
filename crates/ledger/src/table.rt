//! The refusals, as one table.
ghost use Rattle.ledger.specs.Table.{Numbered, RefusedByTheTable};

/// Answers how many numbers the table has, and promises that a call is refused with a number exactly when that number's condition
/// holds and no smaller one's does.
pub fn refused_by_the_table() -> u8
    ensures count { Numbered result }
    ensures refused { RefusedByTheTable }
{
    12
}
