//! The balancing book: its calls, in memory that the caller lends.
//!
//! One way in: `Book::apply` decides every call by the stage and the call together, and bears the law over runs. Nothing here reads
//! bytes, prints or allocates.

#![tactic(auto)]

pub mod book;
pub(crate) mod decide;
pub mod request;
