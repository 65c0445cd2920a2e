//! The book's meaning: its records, which call it refuses and why, and what an accepted call leaves.
//!
//! Nothing here keeps anything: the definitions in specs/ say what the book is held to.

#![tactic(auto)]

pub mod example;
pub mod law;
pub mod records;
pub mod table;
