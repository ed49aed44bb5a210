//! The search for a key.
ghost use Rattle.std.specs.Prelude.{◌≡◌, ◌<◌, length, None};
ghost use Rattle.cells.specs.Cells.{lookup, taken, at, after, Sound};
ghost use Rattle.cells.specs.Searching.{held, Sought};

use crate::cell::Cell;
use crate::key::Key;

/// The next place, round the end.
pub fn next_place(p: usize, n: usize) -> usize
    requires { p < n }
    ensures { result ≡ after n p }
{
    if p + 1 == n { 0 } else { p + 1 }
}

/// The place where the key stands; or else the free place where a search for it ends, if any is free.
pub fn locate<K: Key, V: Copy>(cells: &[Cell<K, V>], key: &K) -> Result<usize, Option<usize>>
    requires { Sound K.number cells.now }
    ensures { Sought K.equal K.number cells.now key.now result }
{
    let n = cells.len();
    if n == 0 {
        return Err(None);
    }
    let home = key.spread() % n;
    // The answer is a place, and the way to it leads round the end.
    for p in (home..n).chain(0..home) {
        match &cells[p] {
            None => return Err(Some(p)),
            Some((q, _)) if q.same(key) => return Ok(p),
            Some(_) => {}
        }
    }
    Err(None)
}

/// The value at a place, if it is used.
pub fn value_at<K: Copy, V: Copy>(cells: &[Cell<K, V>], p: usize) -> Option<V>
    requires { p < length cells.now }
    ensures { result ≡ held (at cells.now p) }
{
    cells[p].map(|(_, value)| value)
}

// A shared slice makes no finder, so the search of a slice stands beside a finder's method.
/// What the key finds.
pub fn find<K: Key, V: Copy>(cells: &[Cell<K, V>], key: &K) -> Option<V>
    requires { Sound K.number cells.now }
    ensures { result ≡ lookup K.equal cells.now key.now }
{
    value_at(cells, locate(cells, key).ok()?)
}

// For cells that no finder holds yet; a finder's `new` and `clear` go by it.
/// Sets every place free, whatever the cells hold.
pub fn clear<K: Key, V: Copy>(cells: &mut [Cell<K, V>])
    ensures sound { Sound K.number cells.new }
    ensures none { (q : K) → lookup K.equal cells.new q ≡ None }
    ensures taken { taken cells.new ≡ 0 }
{
    cells.fill(None);
}
