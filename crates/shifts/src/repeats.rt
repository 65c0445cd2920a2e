//! Lines that a reallocation names twice.
//!
//! Lines are told apart by account and pipeline, never by their therms.
ghost use Rattle.std.specs.Prelude.{◌≡◌, []};
ghost use Rattle.ledger.specs.Table.{first_repeated};

use calls::fields::Line;
use register::keyed::Keyed;

/// The first line that has the key of an earlier one.
pub fn first_repeated(named: &[Line]) -> Option<Line>
    ensures { result ≡ first_repeated [] named.now }
{
    for (i, line) in named.iter().enumerate() {
        let key = line.key();
        if named[..i].iter().any(|earlier| earlier.key() == key) {
            return Some(*line);
        }
    }
    None
}
