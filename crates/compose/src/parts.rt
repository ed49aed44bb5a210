//! What can be wrong with a line, and in which part of it.
use thiserror::Error;

#[derive(Clone, Copy, Debug, PartialEq, Eq)]
pub enum Part {
    Call,
    Trader,
    Side,
    Kind,
    Term,
    Marks,
    Limit,
    Volume,
    Display,
    Instruction,
    Key,
    Order,
    Bid,
    Offer,
    Broker,
    Lst,
}

#[derive(Clone, Copy, Debug, PartialEq, Eq, Error)]
pub enum Wrong {
    #[error("missing")]
    Missing,
    #[error("not a word or a code that it can be")]
    Unknown,
    #[error("not six letters")]
    NotSixLetters,
    #[error("not a number")]
    NotNumber,
    #[error("not an amount in dollars and quarter cents")]
    NotDollars,
    #[error("too large for its field")]
    TooLarge,
    #[error("complete, but words are left on the line")]
    WordsLeft,
}

#[derive(Clone, Copy, Debug, PartialEq, Eq, Error)]
#[error("{}: {wrong}", .part.name())]
pub struct LineFault {
    pub part: Part,
    pub wrong: Wrong,
}

impl Part {
    /// The word that stands in front of the part, or that names it in a message.
    pub fn name(self) -> &'static str {
        match self {
            Part::Call => "call",
            Part::Trader => "trader",
            Part::Side => "side",
            Part::Kind => "kind",
            Part::Term => "term",
            Part::Marks => "marks",
            Part::Limit => "limit",
            Part::Volume => "volume",
            Part::Display => "display",
            Part::Instruction => "instruction",
            Part::Key => "key",
            Part::Order => "order",
            Part::Bid => "bid",
            Part::Offer => "offer",
            Part::Broker => "broker",
            Part::Lst => "lst",
        }
    }
}

impl Wrong {
    pub fn at(self, part: Part) -> LineFault {
        LineFault { part, wrong: self }
    }
}
