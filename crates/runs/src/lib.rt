//! A run of an active order through the resting ones.
#![tactic(auto)]

ghost use Rattle.runs.specs.Chains.{RunsHold};

/// From any start and under every lawful rule there is exactly one chain of meetings, and it is the run.
pub fn runs_hold()
    ensures { RunsHold }
{}
