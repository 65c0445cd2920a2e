//! Trial months through the book's one call: every refusal, every window, full tables, and rules of other makers. Expected values are
//! worked by hand. Nothing here is part of the product.

#![tactic(auto)]

pub mod cash_only;
#[cfg(test)]
mod full_tables;
#[cfg(test)]
mod refusals;
#[cfg(test)]
mod said;
#[cfg(test)]
mod trial_month;
#[cfg(test)]
mod windows;
