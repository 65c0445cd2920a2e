//! One register for every record that tells its key, in memory that the caller lends, and the shelf that it stands on.
//!
//! An inner crate. Keys rise in every register, and nothing holds more than its room: the types say so. It knows nothing of gas.

#![tactic(auto)]

pub mod keyed;
pub mod shelf;
pub mod table;
