//! The day of two accounts, by the book's meaning.
ghost use Rattle.std.specs.Prelude.{◌≡◌, pos};
ghost use Rattle.ledger.specs.Claim.{statement};
ghost use Rattle.ledger.specs.Example.{ExampleDay, written};

/// Answers supplier 12's statement after the example's day, and promises that the definitions settle that day to its rows and refuse what
/// is wrong in it.
pub fn example_day() -> u16
    ensures owed { pos result ≡ statement written 12 }
    ensures day { ExampleDay }
{
    2164
}
