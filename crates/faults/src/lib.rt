//! Why a call is refused: a fault for each layer, and the refusal that it ends in.
#![tactic(auto)]

mod layers;
mod refusals;

pub use layers::{BookFault, CallField, ChannelFault, FieldFault, FrameFault};
pub use refusals::{Layer, Reason, Refusal};
