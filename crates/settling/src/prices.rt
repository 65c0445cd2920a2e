//! The month's average index price.
//!
//! Market prices have no part in it, and a day without a price counts as 0.
ghost use Rattle.std.specs.Prelude.{◌≡◌, ◌^◌, ◌<◌, ◌≤◌, true, sum_by};
ghost use Rattle.tariff.specs.Each.{each};
ghost use Rattle.tariff.specs.Prices.{average};
ghost use Rattle.register.specs.Keys.{rising};
ghost use Rattle.ledger.specs.State.{price_day};
ghost use Rattle.ledger.specs.Ready.{price_of_month};
ghost use Rattle.ledger.specs.Rows.{index_total};

use calls::fields::PriceQuote;
use tariff::prices::Price;

/// The index prices, added up.
fn total_of(prices: &[PriceQuote]) -> u32
    requires { sum_by (λ p. p.index) prices.now < 2 ^ 32 }
    ensures { result ≡ sum_by (λ p. p.index) prices.now }
{
    prices.iter().map(|price| price.index).sum()
}

/// The average of the index prices over the days.
pub fn average_index(prices: &[PriceQuote], days: u8) -> Price
    requires rises { rising price_day prices.now ≡ true }
    requires of_month { each (price_of_month days) prices.now ≡ true }
    requires first { 1 ≤ days }
    requires last { days ≤ 31 }
    ensures { result.hundredths ≡ average (index_total prices.now) days }
{
    Price::average(total_of(prices), days).unwrap()
}
