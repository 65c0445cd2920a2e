//! Every number and rule of the tariff for one account.
//!
//! From lines to cents: `Loss` takes off the loss, `Month` knows the day's maxima and the month-end band, a `DayRule`
//! places the day's therms, `settle_day` and `close_month` price them. Nothing here knows of books, feeds or memory.

#![tactic(auto)]

pub mod answer;
pub mod calendar;
pub mod cents;
pub mod closing;
pub mod critical;
pub mod day_rule;
pub mod inventory;
pub mod loss;
pub mod ordinary;
pub mod posting;
pub mod prices;
pub mod published;
pub mod question;
pub mod settling;
pub mod tiers;
pub mod worked;
