//! Frames of calls and reports: bytes to numbers and back.
#![tactic(auto)]

mod bytes;
mod framed;
mod frames;
mod reader;
mod reports;
mod writer;

pub use bytes::layouts_hold;
pub use frames::{CallFrame, CallKind, EnrolFrame, EnterFrame};
pub use reader::FrameReader;
pub use reports::report_bytes;
pub use writer::{frames_round_trip, write_call};
