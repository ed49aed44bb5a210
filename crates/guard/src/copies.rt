//! Copies between the table and its spare, at the price of what was written.
ghost use Rattle.std.specs.Prelude.{◌≡◌, length};
ghost use Rattle.table.specs.Noting.{Agree};

use table::{Journal, OrderRecord};

/// Makes `to` the same as `from`: at the places noted, or the whole below the high mark.
pub fn copy_changed(from: &[Option<OrderRecord>], to: &mut [Option<OrderRecord>], journal: &Journal)
    requires long { length to.old ≡ length from.now }
    requires agree { Agree (length from.now) journal.now from.now to.old }
    ensures { to.new ≡ from.now }
{
    match &journal.noted {
        Some(noted) => {
            for &place in noted.as_slice() {
                to[place as usize] = from[place as usize];
            }
        }
        None => to[..journal.high].copy_from_slice(&from[..journal.high]),
    }
}
