//! A line for a call, and one for a refusal.
ghost use Rattle.std.specs.Prelude.{Some};
ghost use Rattle.words.specs.Words.{refusal_words};
ghost use Rattle.words.specs.Lines.{trader_words, call_words};

use crate::money::{Dollars, QuoteSide};
use codes::Coded;
use faults::Refusal;
use names::Worded;
use std::fmt;
use types::{Call, Quote, TraderId};

// A trader's type is declared elsewhere, so what prints it is a wrapper.
#[derive(Clone, Copy)]
struct TraderWords {
    trader: TraderId,
}

impl fmt::Display for TraderWords {
    ghost output = { λ w. Some (trader_words w.trader) };

    fn fmt<W: fmt::Write>(&self, f: &mut fmt::Formatter<W>) -> fmt::Result {
        let [a, b, c, d, e, g] = self.trader.letters;
        let (a, b, c) = (char::from(a), char::from(b), char::from(c));
        let (d, e, g) = (char::from(d), char::from(e), char::from(g));
        write!(f, "trader {a}{b}{c}{d}{e}{g}")
    }
}

#[derive(Clone, Copy, Debug, PartialEq, Eq)]
pub struct RefusalLine {
    pub refusal: Refusal,
}

impl fmt::Display for RefusalLine {
    ghost output = { λ l. Some (refusal_words l.refusal) };

    fn fmt<W: fmt::Write>(&self, f: &mut fmt::Formatter<W>) -> fmt::Result {
        let refusal = self.refusal;
        write!(
            f,
            "refused {} {} layer {} place {}",
            u8::from(refusal.reason),
            refusal.reason.word(),
            u8::from(refusal.layer),
            refusal.place
        )
    }
}

/// A call in words and dollars.
#[derive(Clone, Copy, Debug, PartialEq, Eq)]
pub struct CallLine {
    pub call: Call,
}

impl fmt::Display for CallLine {
    ghost output = { λ l. Some (call_words l.call) };

    fn fmt<W: fmt::Write>(&self, f: &mut fmt::Formatter<W>) -> fmt::Result {
        match self.call {
            // In two writes, since the proof of one with all eleven parts did not close.
            Call::Enter(entry) => {
                write!(
                    f,
                    "enter {} {} {} {} marks {}",
                    TraderWords {
                        trader: entry.trader
                    },
                    entry.side.word(),
                    entry.kind.word(),
                    entry.term.word(),
                    entry.marks.word()
                )?;
                write!(
                    f,
                    " limit {} volume {} display {} instruction {} key {}",
                    Dollars { price: entry.limit },
                    entry.volume.shares,
                    entry.display.shares,
                    entry.instruction.code(),
                    entry.key.number
                )
            }
            Call::Cancel(cancellation) => write!(
                f,
                "cancel {} order {}",
                TraderWords {
                    trader: cancellation.trader
                },
                cancellation.order.number
            ),
            Call::Quote(Quote { bid, offer }) => write!(
                f,
                "quote bid {} offer {}",
                QuoteSide { price: bid },
                QuoteSide { price: offer }
            ),
            Call::Halt => write!(f, "halt"),
            Call::Resume(Quote { bid, offer }) => write!(
                f,
                "resume bid {} offer {}",
                QuoteSide { price: bid },
                QuoteSide { price: offer }
            ),
            Call::Close => write!(f, "close"),
            Call::Enrol(enrolment) => write!(
                f,
                "enrol {} broker {} lst {}",
                TraderWords {
                    trader: enrolment.trader
                },
                enrolment.broker.number,
                enrolment.latency_sensitive.word()
            ),
        }
    }
}
