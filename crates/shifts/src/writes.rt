//! The lines that stand: how many of the named ones are new, and all of them put.
//!
//! A line that no reallocation names keeps its therms, and none is ever taken away.
ghost use Rattle.std.specs.Prelude.{◌≡◌, ◌+◌, ◌≤◌, [], length, None};
ghost use Rattle.register.specs.Views.{held, room};
ghost use Rattle.ledger.specs.Table.{count_absent, first_repeated};
ghost use Rattle.ledger.specs.Effects.{put_lines};

use calls::fields::Line;
use register::keyed::Keyed;
use register::table::Register;

/// How many of the named lines do not stand yet.
pub fn count_absent(lines: &Register<Line>, named: &[Line]) -> usize
    ensures { result ≡ count_absent (held lines.now.shelf) named.now }
{
    named
        .iter()
        .filter(|line| lines.look(line.key()).is_none())
        .count()
}

/// Puts each named line over the one in its place, or in a place of its own.
pub fn put_all(lines: &mut Register<Line>, named: &[Line])
    requires space { length (held lines.old.shelf) + count_absent (held lines.old.shelf) named.now ≤ room lines.old.shelf }
    requires unrepeated { first_repeated [] named.now ≡ None }
    ensures after { held lines.new.shelf ≡ put_lines named.now (held lines.old.shelf) }
    ensures sized { room lines.new.shelf ≡ room lines.old.shelf }
{
    for line in named {
        lines.set(*line).unwrap();
    }
}
