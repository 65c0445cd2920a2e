//! Records by rising key, in lent memory.
ghost use Rattle.std.specs.Prelude.{◌≡◌, true};
ghost use Rattle.register.specs.Keys.{rising};
ghost use Rattle.register.specs.Views.{held};

use crate::keyed::Keyed;
use crate::shelf::Shelf;
pub use crate::shelf::Untaken;

pub(crate) mod methods;

/// Records in lent memory, by rising key: no key comes twice.
#[derive(Drop)]
pub struct Register<'a, T: Keyed> {
    shelf: Shelf<'a, T>,
    ghost rises: { rising T.Keyed.key (held shelf) ≡ true },
}
