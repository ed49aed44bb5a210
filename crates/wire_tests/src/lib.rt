//! Tests of the outer layer: calls, frames, refusals and reports on examples.
#![tactic(auto)]

#[cfg(test)]
mod tests;
