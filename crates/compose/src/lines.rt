//! A line's words, one after another, to the numbers of a call's frame.
use crate::parts::{LineFault, Part, Wrong};
use codes::Coded;
use names::Worded;
use std::str::SplitWhitespace;
use types::{
    Broker, Cancellation, Marks, OrderKind, OrderNumber, Price, Quote, Side, TimeInForce, TraderId,
};
use wire::{CallFrame, EnrolFrame, EnterFrame};

/// The code of the value that the word names; all codes are below 8.
fn code_of<T: Coded + Worded>(word: &str) -> Option<u8> {
    (0..8u8).find(|code| T::from_code(*code).is_some_and(|value| value.word() == word))
}

fn number<T: TryFrom<u64>>(word: &str, part: Part) -> Result<T, LineFault>
where
    T::Error: Drop,
{
    let number = word.parse::<u64>().map_err(|_| Wrong::NotNumber.at(part))?;
    T::try_from(number).map_err(|_| Wrong::TooLarge.at(part))
}

/// How many ten-thousandths the decimals behind a point are; there are one to four of them.
fn decimals(text: &str) -> Option<u32> {
    let scale = match text.len() {
        1 => 1000,
        2 => 100,
        3 => 10,
        4 => 1,
        _ => return None,
    };
    let number = text.parse::<u16>().ok()?;
    Some(u32::from(number) * scale)
}

/// How many ten-thousandths of a dollar the text says.
fn dollars(text: &str) -> Option<u64> {
    let (whole, part) = match text.split_once('.') {
        Some((whole, part)) => (whole, decimals(part)?),
        None => (text, 0),
    };
    let whole = whole.parse::<u32>().ok()?;
    Some(u64::from(whole) * 10_000 + u64::from(part))
}

/// A price in quarter cents.
fn price(word: &str, part: Part) -> Result<u32, LineFault> {
    let amount = dollars(word)
        .filter(|amount| *amount % 25 == 0)
        .ok_or(Wrong::NotDollars.at(part))?;
    u32::try_from(amount / 25).map_err(|_| Wrong::TooLarge.at(part))
}

/// The words of a line that are still to be read.
#[derive(Drop)]
struct Words<'a> {
    left: SplitWhitespace<'a>,
}

impl<'a> Words<'a> {
    fn next(&mut self, part: Part) -> Result<&'a str, LineFault> {
        self.left.next().ok_or(Wrong::Missing.at(part))
    }

    /// Passes over the part's name.
    fn name(&mut self, part: Part) -> Result<(), LineFault> {
        if self.next(part)? == part.name() {
            Ok(())
        } else {
            Err(Wrong::Missing.at(part))
        }
    }

    /// The word behind the part's name.
    fn named(&mut self, part: Part) -> Result<&'a str, LineFault> {
        self.name(part)?;
        self.next(part)
    }

    fn number<T: TryFrom<u64>>(&mut self, part: Part) -> Result<T, LineFault>
    where
        T::Error: Drop,
    {
        number(self.named(part)?, part)
    }

    fn price(&mut self, part: Part) -> Result<u32, LineFault> {
        price(self.named(part)?, part)
    }

    fn side(&mut self, part: Part) -> Result<Option<Price>, LineFault> {
        match self.named(part)? {
            "-" => Ok(None),
            word => price(word, part).map(Price::unless_zero),
        }
    }

    /// The code of a word, or one told as a number, so that codes without a meaning can be written too.
    fn code<T: Coded + Worded>(&mut self, part: Part) -> Result<u8, LineFault> {
        let word = self.next(part)?;
        code_of::<T>(word)
            .or_else(|| word.parse::<u8>().ok())
            .ok_or(Wrong::Unknown.at(part))
    }

    fn trader(&mut self) -> Result<TraderId, LineFault> {
        let part = Part::Trader;
        let word = self.named(part)?;
        let letters = word
            .as_bytes()
            .try_into()
            .map_err(|_| Wrong::NotSixLetters.at(part))?;
        Ok(TraderId { letters })
    }

    fn entry(&mut self) -> Result<EnterFrame, LineFault> {
        let trader = self.trader()?;
        let side = self.code::<Side>(Part::Side)?;
        let kind = self.code::<OrderKind>(Part::Kind)?;
        let term = self.code::<TimeInForce>(Part::Term)?;
        self.name(Part::Marks)?;
        Ok(EnterFrame {
            trader,
            side,
            kind,
            term,
            marks: self.code::<Marks>(Part::Marks)?,
            limit: self.price(Part::Limit)?,
            volume: self.number(Part::Volume)?,
            display: self.number(Part::Display)?,
            instruction: self.number(Part::Instruction)?,
            key: self.number(Part::Key)?,
        })
    }

    fn cancellation(&mut self) -> Result<Cancellation, LineFault> {
        Ok(Cancellation {
            trader: self.trader()?,
            order: OrderNumber {
                number: self.number(Part::Order)?,
            },
        })
    }

    fn quote(&mut self) -> Result<Quote, LineFault> {
        Ok(Quote {
            bid: self.side(Part::Bid)?,
            offer: self.side(Part::Offer)?,
        })
    }

    fn enrolment(&mut self) -> Result<EnrolFrame, LineFault> {
        let trader = self.trader()?;
        let broker = Broker {
            number: self.number(Part::Broker)?,
        };
        self.name(Part::Lst)?;
        Ok(EnrolFrame {
            trader,
            broker,
            latency_sensitive: self.code::<bool>(Part::Lst)?,
        })
    }
}

/// The call that a line says.
pub fn read_call(line: &str) -> Result<CallFrame, LineFault> {
    let mut words = Words {
        left: line.split_whitespace(),
    };
    let call = match words.next(Part::Call)? {
        "enter" => CallFrame::Enter(words.entry()?),
        "cancel" => CallFrame::Cancel(words.cancellation()?),
        "quote" => CallFrame::Quote(words.quote()?),
        "halt" => CallFrame::Halt,
        "resume" => CallFrame::Resume(words.quote()?),
        "close" => CallFrame::Close,
        "enrol" => CallFrame::Enrol(words.enrolment()?),
        _ => return Err(Wrong::Unknown.at(Part::Call)),
    };
    match words.left.next() {
        None => Ok(call),
        Some(_) => Err(Wrong::WordsLeft.at(Part::Call)),
    }
}
