// This crate is its specs/: what is promised of the definition and of the layer's calls, and the proofs. It has no function and no code builds on
// it, so that a new promise costs no code another check. A reader has to believe the statements, and nothing of the proofs.

#![tactic(auto)]

// The demands of the request that are stated here, of any layer.
pub const DEMANDS_STATED: u32 = 3;
