//! The byte format: records read into calls, and the faults that stop a feed.
//!
//! A record is a two-byte mark and then its fields. Nothing here decides what a call does.

#![tactic(auto)]

pub mod fault;
mod kinds;
mod lines;
mod numbers;
pub mod reader;
pub mod records;
