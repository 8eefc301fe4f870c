// This crate is its specs/: laws of the definition that code cites. A reader need not believe anything here; the checker does the reading.

#![tactic(auto)]

// The demand of the request that code is proved against by these laws: the answers and the table are the definition's.
pub const DEMAND: u32 = 1;
