//! The keys of what calls bring and the book keeps: lines and prices.
ghost use Rattle.std.specs.Prelude.{◌+◌, ◌*◌};

use crate::fields::{Line, PriceQuote};
use register::keyed::Keyed;

/// Lines go by account and pipeline; pipelines are below sixteen.
impl Keyed for Line {
    ghost key = { λ l. l.account * 16 + l.pipeline };

    fn key(&self) -> u64 {
        u64::from(self.account) * 16 + u64::from(self.pipeline)
    }
}

/// Prices go by day.
impl Keyed for PriceQuote {
    ghost key = { λ p. p.day };

    fn key(&self) -> u64 {
        u64::from(self.day)
    }
}
