//! A place set free.
ghost use Rattle.std.specs.Prelude.{◌≡◌, ◌<◌, length, None, Decides};
ghost use Rattle.cells.specs.Cells.{at, gap, lookup, taken, Sound, SoundBut};
ghost use Rattle.finder.specs.Changes.{LeadsOver, Follower};

use cells::{Cell, Key, next_place};

/// How far it is from a round to b.
fn way(n: usize, a: usize, b: usize) -> usize
    requires { (a < n) × (b < n) }
    ensures { result ≡ gap n a b }
{
    if a <= b { b - a } else { n - a + b }
}

/// Whether the way of a key at p leads over the hole.
fn leads_over<K: Key>(key: &K, n: usize, hole: usize, p: usize) -> bool
    requires { (hole < n) × (p < n) }
    ensures { Decides result (LeadsOver K.number n hole p key.now) }
{
    let home = key.spread() % n;
    way(n, home, hole) < way(n, home, p)
}

/// The place of the next key to draw up: one in the row behind the hole whose way leads over it.
fn follower<K: Key, V: Copy>(cells: &[Cell<K, V>], hole: usize) -> Option<usize>
    requires { hole < length cells.now }
    ensures { Follower K.number hole cells.now result }
{
    let n = cells.len();
    let next = next_place(hole, n);
    // The answer is a place, and the row leads round the end.
    for p in (next..n).chain(0..next) {
        match &cells[p] {
            None => return None,
            Some((key, _)) if leads_over(key, n, hole, p) => return Some(p),
            Some(_) => {}
        }
    }
    None
}

/// Draws the keys behind a hole nearer to their homes, until no search for a key leads over the hole.
pub(crate) fn draw_up<K: Key, V: Copy>(cells: &mut [Cell<K, V>], place: usize)
    requires within { place < length cells.old }
    requires free { at cells.old place ≡ None }
    requires sound { SoundBut K.number place cells.old }
    ensures sound { Sound K.number cells.new }
    ensures finds { (q : K) → lookup K.equal cells.new q ≡ lookup K.equal cells.old q }
    ensures taken { taken cells.new ≡ taken cells.old }
    ensures places { length cells.new ≡ length cells.old }
{
    let mut hole = place;
    while let Some(p) = follower(cells, hole) {
        cells.swap(hole, p);
        hole = p;
    }
}
