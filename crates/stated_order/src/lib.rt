//! Answers in a stated order: the first refusal of several steps, the least number, the first that fails.
//!
//! There is no call here. The definitions stand in `specs/` and their laws in `proofs/`, for the crates above.
#![tactic(auto)]
