//! The tests and writes of a reallocation, over lent registers.
//!
//! Each function says one thing of what it is lent. None decides whether a call is refused, and only `put_all` writes.

#![tactic(auto)]

pub mod accounts;
pub mod repeats;
pub mod totals;
pub mod writes;
