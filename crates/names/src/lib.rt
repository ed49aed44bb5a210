//! The words for sides, kinds, terms, marks, flags and the reasons of refusals.
#![tactic(auto)]

ghost use Rattle.std.specs.Prelude.{◌≡◌, ℕ, List};
ghost use Rattle.names.specs.Names.{side_word, kind_word, term_word, mark_words, flag_word, reason_word};

use faults::Reason;
use types::{Marks, OrderKind, Side, TimeInForce};

/// What is told by a word of its own.
// No `Display`, since the types are of other crates, and words are compared as well as printed.
pub trait Worded: Sized {
    ghost words: { Self → List ℕ };

    fn word(self) -> &'static str
        ensures { result.now ≡ words self };
}

impl Worded for Side {
    ghost words = { side_word };

    fn word(self) -> &'static str {
        match self {
            Side::Buy => "buy",
            Side::Sell => "sell",
        }
    }
}

impl Worded for OrderKind {
    ghost words = { kind_word };

    fn word(self) -> &'static str {
        match self {
            OrderKind::Limit => "limit",
            OrderKind::Iceberg => "iceberg",
            OrderKind::Peg => "peg",
        }
    }
}

impl Worded for TimeInForce {
    ghost words = { term_word };

    fn word(self) -> &'static str {
        match self {
            TimeInForce::Day => "day",
            TimeInForce::ImmediateOrCancel => "ioc",
            TimeInForce::FillOrKill => "fok",
        }
    }
}

impl Worded for Marks {
    ghost words = { λ m. mark_words m.post_only m.anonymous m.jitney };

    fn word(self) -> &'static str {
        match (self.post_only, self.anonymous, self.jitney) {
            (false, false, false) => "-",
            (true, false, false) => "post-only",
            (false, true, false) => "anonymous",
            (true, true, false) => "post-only+anonymous",
            (false, false, true) => "jitney",
            (true, false, true) => "post-only+jitney",
            (false, true, true) => "anonymous+jitney",
            (true, true, true) => "post-only+anonymous+jitney",
        }
    }
}

impl Worded for bool {
    ghost words = { flag_word };

    fn word(self) -> &'static str {
        if self { "yes" } else { "no" }
    }
}

impl Worded for Reason {
    ghost words = { reason_word };

    fn word(self) -> &'static str {
        match self {
            Reason::Short => "SHORT",
            Reason::Version => "VERSION",
            Reason::Kind => "KIND",
            Reason::Length => "LENGTH",
            Reason::Field => "FIELD",
            Reason::Price => "PRICE",
            Reason::Volume => "VOLUME",
            Reason::Display => "DISPLAY",
            Reason::Pairing => "PAIRING",
            Reason::SetUp => "SET-UP",
            Reason::Closed => "CLOSED",
            Reason::Halted => "HALTED",
            Reason::NotHalted => "NOT HALTED",
            Reason::UnknownTrader => "UNKNOWN TRADER",
            Reason::TraderKnown => "TRADER KNOWN",
            Reason::RegisterFull => "REGISTER FULL",
            Reason::LatencySensitive => "LST",
            Reason::WouldTake => "WOULD TAKE",
            Reason::UnknownOrder => "UNKNOWN ORDER",
            Reason::OtherBrokers => "OTHER BROKER'S",
            Reason::DayLimit => "DAY LIMIT",
            Reason::TableFull => "TABLE FULL",
            Reason::SheetFull => "SHEET FULL",
            Reason::ChannelFull => "CHANNEL FULL",
        }
    }
}
