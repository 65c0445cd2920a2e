//! The therms that named lines come to on a pipeline, beside those that stand in their places.
//!
//! A total is one pipeline's: what is more on one never makes up for what is less on another.
ghost use Rattle.std.specs.Prelude.{◌≡◌, ◌≤◌, length};
ghost use Rattle.register.specs.Views.{held};
ghost use Rattle.ledger.specs.State.{therms_at};
ghost use Rattle.std.specs.List.{find};
ghost use Rattle.ledger.specs.Table.{pipelines};
ghost use Rattle.ledger.specs.Later.{changes_among};

use calls::fields::Line;
use calls::limits::PIPELINES;
use register::keyed::Keyed;
use register::table::Register;

/// The therms that stand in the line's place; a line that is absent counts 0.
fn therms_standing(lines: &Register<Line>, line: &Line) -> u32
    ensures { result ≡ therms_at line.now.account line.now.pipeline (held lines.now.shelf) }
{
    lines.look(line.key()).map_or(0, |found| found.therms)
}

/// Whether the named lines come to another total on one pipeline than what stands in their places.
fn is_changed_on(lines: &Register<Line>, named: &[Line], pipeline: u8) -> bool
    ensures { result ≡ changes_among (held lines.now.shelf) named.now pipeline }
{
    let on_pipeline = |line: &&Line| line.pipeline == pipeline;
    let new: u128 = named
        .iter()
        .filter(on_pipeline)
        .map(|line| u128::from(line.therms))
        .sum();
    let was: u128 = named
        .iter()
        .filter(on_pipeline)
        .map(|line| u128::from(therms_standing(lines, line)))
        .sum();
    new != was
}

/// The first pipeline whose total changes.
pub fn first_changed(lines: &Register<Line>, named: &[Line]) -> Option<u8>
    ensures { result ≡ find (changes_among (held lines.now.shelf) named.now) pipelines }
{
    (1..=PIPELINES).find(|pipeline| is_changed_on(lines, named, *pipeline))
}
