// How an ordered table is made, and how many elements it holds.
ghost use Rattle.std.specs.Prelude.{◌≡◌, ◌≤◌, [], length, take};
ghost use Rattle.table.specs.Elements.{elements};

use crate::order::Ordered;
use crate::table::Table;

impl<'a, E: Ordered + Copy> Table<'a, E> {
    // An empty table. What the places hold is not looked at.
    pub fn new(places: &'a mut [E]) -> Table<'a, E>
        ensures elements { elements result ≡ [] }
        ensures places { result.places.now ≡ places.old }
        ensures same { result.places.ghost_name ≡ places.entry.ghost_name }
    {
        Table { places, len: 0 }
    }

    // Goes on with the first `len` places of memory that an earlier table left.
    pub fn resume(places: &'a mut [E], len: usize) -> Table<'a, E>
        ensures elements { elements result ≡ take len places.old }
        ensures places { result.places.now ≡ places.old }
        ensures same { result.places.ghost_name ≡ places.entry.ghost_name }
    {
        Table {
            len: len.min(places.len()),
            places,
        }
    }

    // How many elements there are; `resume` goes on with as many places.
    pub fn len(&self) -> usize
        ensures value { result ≡ length (elements self.now) }
        ensures bound { result ≤ length self.now.places.now }
        ensures places { take result self.now.places.now ≡ elements self.now }
    {
        self.len
    }
}
