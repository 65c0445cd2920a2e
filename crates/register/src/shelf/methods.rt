//! What a shelf does. That its room stays as it was speaks of before and after, and so stands in the clauses of each call that writes.
ghost use Rattle.std.specs.Prelude.{◌≡◌, ◌+◌, ◌<◌, ◌≤◌, true, [], ◌∷◌, ◌++◌, length, if◌then◌else◌, nat_le, slice_index_or, slice_set};
ghost use Rattle.std.specs.List.{insert};
ghost use Rattle.register.specs.Keys.{at, put, fits, rising};
ghost use Rattle.register.specs.Places.{Sought, taken_if};
ghost use Rattle.register.specs.Views.{held, room};

use super::{Shelf, Untaken};
use crate::keyed::Keyed;

impl<'a, T: Copy> Shelf<'a, T> {
    /// An empty shelf over lent memory, whatever that held.
    pub fn new(items: &'a mut [T]) -> Self
        ensures empty { held result ≡ [] }
        ensures sized { room result ≡ length items.old }
    {
        Shelf { items, count: 0 }
    }

    /// How many records are held.
    pub fn len(&self) -> usize
        ensures { result ≡ length (held self.now) }
    {
        self.all().len()
    }

    /// Whether there is room for `more` records.
    pub fn has_room(&self, more: usize) -> bool
        ensures { result ≡ nat_le (length (held self.now) + more) (room self.now) }
    {
        more <= self.items.len() - self.count
    }

    /// The records held, in their order.
    pub fn all(&self) -> &[T]
        ensures { result.now ≡ held self.now }
    {
        let items = &*self.items;
        &items[..self.count]
    }

    /// Adds a record at the end.
    pub fn append(&mut self, item: T)
        requires has_room { length (held self.old) < room self.old }
        ensures after { held self.new ≡ held self.old ++ item ∷ [] }
        ensures sized { room self.new ≡ room self.old }
    {
        self.items[self.count] = item;
        self.count += 1;
    }

    /// Lets every record go; the memory is used again.
    pub fn clear(&mut self)
        ensures after { held self.new ≡ [] }
        ensures sized { room self.new ≡ room self.old }
    {
        self.count = 0;
    }

    /// The record at a place.
    pub fn get(&self, place: usize) -> T
        requires held_there { place < length (held self.now) }
        ensures { result ≡ slice_index_or (held self.now) place result }
    {
        self.all()[place]
    }

    /// Puts a record in the place of another.
    pub fn replace(&mut self, place: usize, item: T)
        requires held_there { place < length (held self.old) }
        ensures after { held self.new ≡ slice_set (held self.old) place item }
        ensures sized { room self.new ≡ room self.old }
    {
        self.items[place] = item;
    }

    /// Adds a record before the one at a place.
    pub(crate) fn insert(&mut self, before: usize, item: T)
        requires before_within { before ≤ length (held self.old) }
        requires has_room { length (held self.old) < room self.old }
        ensures after { held self.new ≡ insert (held self.old) before item }
        ensures sized { room self.new ≡ room self.old }
    {
        self.append(item);
        self.items[before..self.count].rotate_right(1);
    }
}

// Each of these asks that the keys rise, and `set` leaves them so: the type does not hold it, for records are put anywhere on a shelf.
impl<'a, T: Keyed + Copy> Shelf<'a, T> {
    /// Where the key stands, or else where it would go.
    // By halves, in a loop that ends at the key; the library's searches go on to the last half.
    fn place_of(&self, key: u64) -> Result<usize, usize>
        requires rises { rising T.Keyed.key (held self.now) ≡ true }
        ensures { Sought T.Keyed.key key (held self.now) result }
    {
        let items = self.all();
        let mut low = 0;
        let mut high = items.len();
        while low < high {
            let mid = low + (high - low) / 2;
            let here = items[mid].key();
            if here == key {
                return Ok(mid);
            }
            if here < key {
                low = mid + 1;
            } else {
                high = mid;
            }
        }
        Err(low)
    }

    /// The record with this key.
    pub fn look(&self, key: u64) -> Option<T>
        requires rises { rising T.Keyed.key (held self.now) ≡ true }
        ensures { result ≡ at T.Keyed.key key (held self.now) }
    {
        let place = self.place_of(key).ok()?;
        Some(self.get(place))
    }

    /// Puts a record over the one with its key, or between those before and after it, where there is room for one more.
    pub fn set(&mut self, item: T) -> Result<(), Untaken>
        requires rises { rising T.Keyed.key (held self.old) ≡ true }
        ensures answer { result ≡ taken_if (fits T.Keyed.key (room self.old) (held self.old) item) }
        ensures after { held self.new ≡ (if fits T.Keyed.key (room self.old) (held self.old) item then put T.Keyed.key item (held self.old) else held self.old) }
        ensures sized { room self.new ≡ room self.old }
        ensures rises { rising T.Keyed.key (held self.new) ≡ true }
    {
        match self.place_of(item.key()) {
            Ok(place) => self.replace(place, item),
            Err(_) if !self.has_room(1) => return Err(Untaken::Full),
            Err(place) => self.insert(place, item),
        }
        Ok(())
    }
}
