//! The loops over accounts, prices and rows: a gas day settled, a month closed, the first account without a reading, the average
//! index, a statement.
//!
//! An inner crate: its functions may ask for what the book keeps true of its tables. A day and a close change accounts in their place
//! and write a row for each; the others only look. None refuses, or touches lines, prices or the month.

#![tactic(auto)]

pub mod close;
pub mod day;
pub(crate) mod lines;
pub mod prices;
pub mod readings;
pub(crate) mod rows;
pub mod statement;
pub(crate) mod walk;
