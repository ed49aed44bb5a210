//! Which orders have a turn.
ghost use Rattle.std.specs.Prelude.{◌≡◌, Bool, true};
ghost use Rattle.types.specs.declared.orders.RestingOrder.{RestingOrder as Resting};
ghost use Rattle.rules.specs.Requotes.{repriced as repriced_by};

use prices::{View, executable_price};
use types::RestingOrder;

/// A choice of resting orders. Its answer is its meaning.
// A trait, since a contract names its meaning as a function of the order; a closure's answers are a relation, of which no `filter` can be said.
pub trait Picks {
    ghost picked: { Self → Resting → Bool };

    fn picks(&self, order: &RestingOrder) -> bool
        ensures { result ≡ picked self.now order.now };
}

/// Every order is picked.
#[derive(Clone, Copy)]
pub struct EveryOrder;

impl Picks for EveryOrder {
    ghost picked = { λ _ _. true };

    fn picks(&self, order: &RestingOrder) -> bool {
        true
    }
}

/// The orders are picked whose executable price changed, appeared or vanished from the old view to the new one.
#[derive(Clone, Copy)]
pub struct Repriced {
    pub old: View,
    pub new: View,
}

impl Picks for Repriced {
    ghost picked = { λ p o. repriced_by p.old p.new o };

    fn picks(&self, order: &RestingOrder) -> bool {
        let old = executable_price(&self.old, &order.order.entry);
        let new = executable_price(&self.new, &order.order.entry);
        old != new
    }
}
