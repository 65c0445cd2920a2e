//! The book's tables in lent memory, and every call past its limits and its stage.
//!
//! An inner crate: its methods ask for what the book keeps true of its tables, and each decides the rest of its refusals in the table's
//! order before it writes anything. Whether a call is taken in a stage is not decided here.

#![tactic(auto)]

pub mod rules;
pub mod tables;
