//! The map over lent cells.
ghost use Rattle.std.specs.Prelude.{◌≡◌, length, None};
ghost use Rattle.cells.specs.Cells.{lookup, taken, Sound};
ghost use Rattle.finder.specs.Changes.{Inserted, Removed};

use crate::shift::draw_up;
use cells::{Cell, Key, clear, find, locate, value_at};

/// No place is free for a new key.
#[derive(Clone, Copy, Debug, PartialEq, Eq)]
pub struct Full;

/// A map over lent cells.
#[derive(Drop)]
pub struct Finder<'a, K, V> {
    pub cells: &'a mut [Cell<K, V>],
}

// What stays the same, the places and the memory, is one equation a clause, and a name for an equation would be no plainer.
impl<'a, K: Key, V: Copy> Finder<'a, K, V> {
    /// Over lent cells, whatever they hold: every place is set free.
    pub fn new(cells: &'a mut [Cell<K, V>]) -> Finder<'a, K, V>
        ensures sound { Sound K.number result.cells.now }
        ensures none { (q : K) → lookup K.equal result.cells.now q ≡ None }
        ensures taken { taken result.cells.now ≡ 0 }
        ensures places { length result.cells.now ≡ length cells.old }
        ensures lent { result.cells.ghost_name ≡ cells.entry.ghost_name }
    {
        clear(cells);
        Finder { cells }
    }

    /// Sets every place free, whatever the cells hold.
    pub fn clear(&mut self)
        ensures sound { Sound K.number self.new.cells.now }
        ensures none { (q : K) → lookup K.equal self.new.cells.now q ≡ None }
        ensures taken { taken self.new.cells.now ≡ 0 }
        ensures places { length self.new.cells.now ≡ length self.old.cells.now }
        ensures lent { self.new.cells.ghost_name ≡ self.old.cells.ghost_name }
    {
        clear(self.cells)
    }

    /// What the key finds.
    pub fn find(&self, key: &K) -> Option<V>
        requires { Sound K.number self.now.cells.now }
        ensures { result ≡ lookup K.equal self.now.cells.now key.now }
    {
        find(self.cells, key)
    }

    /// Has the key find the value, and answers what it found before; refused exactly where the key is new and no place is free.
    pub fn insert(&mut self, key: K, value: V) -> Result<Option<V>, Full>
        requires { Sound K.number self.old.cells.now }
        ensures sound { Sound K.number self.new.cells.now }
        ensures inserted { Inserted K.equal self.old.cells.now key value result self.new.cells.now }
        ensures places { length self.new.cells.now ≡ length self.old.cells.now }
        ensures lent { self.new.cells.ghost_name ≡ self.old.cells.ghost_name }
    {
        let cells = &mut *self.cells;
        let place = match locate(cells, &key) {
            Ok(place) | Err(Some(place)) => place,
            Err(None) => return Err(Full),
        };
        let old = value_at(cells, place);
        cells[place] = Some((key, value));
        Ok(old)
    }

    /// Has the key find nothing, and answers what it found before.
    pub fn remove(&mut self, key: &K) -> Option<V>
        requires { Sound K.number self.old.cells.now }
        ensures sound { Sound K.number self.new.cells.now }
        ensures removed { Removed K.equal self.old.cells.now key.now result self.new.cells.now }
        ensures places { length self.new.cells.now ≡ length self.old.cells.now }
        ensures lent { self.new.cells.ghost_name ≡ self.old.cells.ghost_name }
    {
        let cells = &mut *self.cells;
        let place = locate(cells, key).ok()?;
        let old = value_at(cells, place);
        cells[place] = None;
        draw_up(cells, place);
        old
    }
}
