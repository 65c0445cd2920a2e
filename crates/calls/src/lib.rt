//! What can be said to the book: the calls with their limits, and the refusals with their numbers.
//!
//! Nothing here reads bytes or keeps anything: the feed makes these calls, the book decides them.

#![tactic(auto)]

pub mod fields;
pub mod keys;
pub mod limits;
pub mod refusal;
