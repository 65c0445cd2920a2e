//! Tests at both ends of every limit. Expected values are worked by hand.

#![tactic(auto)]

#[cfg(test)]
mod feed_edges;
#[cfg(test)]
mod tariff_edges;
