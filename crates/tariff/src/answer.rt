//! What a day rule answers.
use crate::tiers::Tiers;

/// Where a day's therms go and come from, besides delivery and use.
#[derive(Clone, Copy, PartialEq, Eq, Debug)]
pub struct Answer {
    pub injected: u32,
    pub withdrawn: u32,
    pub bought: Tiers<u32>,
    pub sold: Tiers<u32>,
    pub authorized: u32,
    pub unauthorized: u32,
}
