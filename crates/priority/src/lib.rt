//! Priority: which of two slices an active order meets first.
#![tactic(auto)]

ghost use Rattle.std.specs.Prelude.{◌≡◌};
ghost use Rattle.priority.specs.Priority.{Rule, Likes, Lawful, ◌then◌, best_price, preferring, own_broker, attributed, omega_prefers, lynx_prefers, time_only, omega_rule, lynx_rule};
ghost use Rattle.priority.specs.Rules.{time_only_lawful, preferring_lawful};

use std::cmp::Ordering;
use types::{Broker, Marks, Price, Side};

/// What a rule is told of the active order.
#[derive(Clone, Copy, Debug, PartialEq, Eq)]
pub struct Taker {
    pub side: Side,
    pub broker: Broker,
    pub marks: Marks,
}

/// What a rule is told of a slice: its executable price, whether it is hidden, and whose it is.
#[derive(Clone, Copy, Debug, PartialEq, Eq)]
pub struct SliceFacts {
    pub price: Price,
    pub hidden: bool,
    pub peg: bool,
    pub broker: Broker,
    pub marks: Marks,
}

/// A priority rule. Its answer is its meaning.
pub trait Priority {
    ghost rule: { Self → Rule };

    /// `Less` where the first slice is ahead, `Greater` where the second is, `Equal` where they are level.
    fn compare(&self, taker: Taker, s: SliceFacts, t: SliceFacts) -> Ordering
        ensures { result ≡ rule self.now taker s t };

    ghost lawful: { (r : Self) → Lawful (rule r) };
}

/// The better price for the active order is ahead.
fn by_price(taker: Taker, s: SliceFacts, t: SliceFacts) -> Ordering
    ensures { result ≡ best_price taker s t }
{
    match taker.side {
        Side::Buy => s.price.cmp(&t.price),
        Side::Sell => t.price.cmp(&s.price),
    }
}

/// Price, and then shown before hidden.
fn by_price_and_shown(taker: Taker, s: SliceFacts, t: SliceFacts) -> Ordering
    ensures { result ≡ time_only taker s t }
{
    by_price(taker, s, t).then(s.hidden.cmp(&t.hidden))
}

/// One broker, and neither is jitney.
fn is_own_broker(taker: Taker, s: SliceFacts) -> bool
    ensures { result ≡ own_broker taker s }
{
    taker.broker == s.broker && !taker.marks.jitney && !s.marks.jitney
}

/// Neither is anonymous.
fn are_attributed(taker: Taker, s: SliceFacts) -> bool
    ensures { result ≡ attributed taker s }
{
    !taker.marks.anonymous && !s.marks.anonymous
}

/// Beyond price and shown, slices go by time.
#[derive(Clone, Copy, Debug)]
pub struct TimeOnly;

impl Priority for TimeOnly {
    ghost rule = { λ _. time_only };

    ghost lawful = { λ r. time_only_lawful };

    fn compare(&self, taker: Taker, s: SliceFacts, t: SliceFacts) -> Ordering {
        by_price_and_shown(taker, s, t)
    }
}

/// What an active order prefers among slices of one price that are shown alike.
pub trait Preference {
    ghost likes: { Likes };

    fn prefers(taker: Taker, s: SliceFacts) -> bool
        ensures { result ≡ likes taker s };
}

/// Price and shown lead, and among slices that are level by these the preferred ones.
impl<P: Preference> Priority for P {
    ghost rule = { λ _. time_only then preferring P.likes };

    ghost lawful = { λ r. preferring_lawful P.likes };

    fn compare(&self, taker: Taker, s: SliceFacts, t: SliceFacts) -> Ordering {
        let preferred = P::prefers(taker, t).cmp(&P::prefers(taker, s));
        by_price_and_shown(taker, s, t).then(preferred)
    }
}

/// Attributed slices of the active order's broker come before others.
#[derive(Clone, Copy, Debug)]
pub struct Omega;

impl Preference for Omega {
    ghost likes = { omega_prefers };

    fn prefers(taker: Taker, s: SliceFacts) -> bool {
        is_own_broker(taker, s) && are_attributed(taker, s)
    }
}

/// As Omega, but for pegs it makes no difference whether they are attributed.
#[derive(Clone, Copy, Debug)]
pub struct Lynx;

impl Preference for Lynx {
    ghost likes = { lynx_prefers };

    fn prefers(taker: Taker, s: SliceFacts) -> bool {
        is_own_broker(taker, s) && (s.peg || are_attributed(taker, s))
    }
}

/// The three rules keep the five laws.
pub fn rules_are_lawful()
    ensures { Lawful omega_rule × Lawful lynx_rule × Lawful time_only }
{}
