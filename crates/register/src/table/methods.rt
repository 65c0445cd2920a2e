//! What a register does.
ghost use Rattle.std.specs.Prelude.{◌≡◌, ◌+◌, ◌<◌, [], length, if◌then◌else◌, nat_le, slice_index_or, slice_set};
ghost use Rattle.register.specs.Keys.{at, put, fits};
ghost use Rattle.register.specs.Places.{taken_if};
ghost use Rattle.register.specs.Views.{held, room};

use super::{Register, Untaken};
use crate::keyed::Keyed;
use crate::shelf::Shelf;

// All of these hand on to the shelf: one that lent its shelf out for change could lose the order of its keys.
impl<'a, T: Keyed + Copy> Register<'a, T> {
    /// An empty register over lent memory, whatever that held.
    pub fn new(items: &'a mut [T]) -> Self
        ensures empty { held result.shelf ≡ [] }
        ensures sized { room result.shelf ≡ length items.old }
    {
        let shelf = Shelf::new(items);
        Register { shelf }
    }

    /// Whether there is room for `more` records.
    pub fn has_room(&self, more: usize) -> bool
        ensures { result ≡ nat_le (length (held self.now.shelf) + more) (room self.now.shelf) }
    {
        self.shelf.has_room(more)
    }

    /// The records held, by rising key.
    pub fn all(&self) -> &[T]
        ensures { result.now ≡ held self.now.shelf }
    {
        self.shelf.all()
    }

    /// Lets every record go; the memory is used again.
    pub fn clear(&mut self)
        ensures after { held self.new.shelf ≡ [] }
        ensures sized { room self.new.shelf ≡ room self.old.shelf }
    {
        self.shelf.clear();
    }

    /// The record with this key.
    pub fn look(&self, key: u64) -> Option<T>
        ensures { result ≡ at T.Keyed.key key (held self.now.shelf) }
    {
        self.shelf.look(key)
    }

    /// Puts a record in the place of one with its key.
    pub fn renew(&mut self, place: usize, item: T)
        requires held_there { place < length (held self.old.shelf) }
        requires same_key { T.Keyed.key (slice_index_or (held self.old.shelf) place item) ≡ T.Keyed.key item }
        ensures after { held self.new.shelf ≡ slice_set (held self.old.shelf) place item }
        ensures sized { room self.new.shelf ≡ room self.old.shelf }
    {
        self.shelf.replace(place, item);
    }

    /// Puts a record over the one with its key, or between those before and after it, where there is room for one more.
    pub fn set(&mut self, item: T) -> Result<(), Untaken>
        ensures answer { result ≡ taken_if (fits T.Keyed.key (room self.old.shelf) (held self.old.shelf) item) }
        ensures after { held self.new.shelf ≡ (if fits T.Keyed.key (room self.old.shelf) (held self.old.shelf) item then put T.Keyed.key item (held self.old.shelf) else held self.old.shelf) }
        ensures sized { room self.new.shelf ≡ room self.old.shelf }
    {
        self.shelf.set(item)
    }
}
