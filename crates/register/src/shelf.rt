//! Records in lent memory, in the order in which they were put there.
ghost use Rattle.std.specs.Prelude.{◌≤◌, length};

pub(crate) mod methods;

/// Records in lent memory, of which the first `count` are held.
// A buffer with a count beside it: the caller lends the memory, and a book takes none of its own.
#[derive(Drop)]
pub struct Shelf<'a, T> {
    items: &'a mut [T],
    count: usize,
    ghost within: { count ≤ length items.now },
}

/// Why a shelf takes no record.
#[derive(Clone, Copy, PartialEq, Eq, Debug)]
pub enum Untaken {
    Full,
}
