//! The one test of a call's limits, which the reader and the book share.
ghost use Rattle.std.specs.Prelude.{◌≡◌, Bool};
ghost use Rattle.tariff.specs.Options.{when};
ghost use Rattle.std.specs.List.{list_all};
ghost use Rattle.calls.specs.Limits.{month_begin_within, opening_within, move_within, gas_cost_within, price_within, day_begin_within, line_within, nomination_within, day_end_within, is_blank, reallocation_within, reading_within, settle_within, closing_within, posting_within, within};

use crate::fields::{
    AccountMove, AccountOpening, Call, DayBegin, DayEnd, DaySettle, GasCost, Line, MAX_SHIFTS,
    MeterReading, MonthBegin, MonthClosing, Nomination, PostedMaxima, PriceQuote, Reallocation,
};
use tariff::calendar::{FIRST_YEAR, LAST_YEAR};
use tariff::loss::MAX_LOSS;
use tariff::posting::MAX_POSTING;
use tariff::prices::MAX_PRICE;
use tariff::question::{LAST_DAY, MAX_CAPACITY, MAX_DAY_THERMS};

pub const MAX_ACCOUNT: u32 = 999_999_999;

pub const PIPELINES: u8 = 8;

pub const MAX_LINE_THERMS: u32 = 1_000_000;

pub const LAST_MINUTE: u16 = 1_439;

/// The kind of a Critical Day; 0 is an ordinary one.
// The highest byte that is a kind, and no enum: the book makes the enum of it where it takes the call.
pub const CRITICAL: u8 = 1;

/// A place of a reallocation that names no line.
pub const BLANK: Line = Line {
    account: 0,
    pipeline: 0,
    therms: 0,
};

/// What has limits, and can be tested against them.
pub trait Limited {
    // Whether every field is within its limits.
    ghost limits: { Self → Bool };

    fn within_limits(&self) -> bool
        ensures { result ≡ limits self.now };
}

/// The fields themselves, where they are within their limits.
pub fn checked<F: Limited + Copy>(fields: F) -> Option<F>
    ensures { result ≡ when (F.Limited.limits fields) fields }
{
    fields.within_limits().then_some(fields)
}

impl Limited for MonthBegin {
    ghost limits = { month_begin_within };

    fn within_limits(&self) -> bool {
        (FIRST_YEAR..=LAST_YEAR).contains(&self.year)
            && (1..=12).contains(&self.month)
            && self.loss <= MAX_LOSS
    }
}

impl Limited for AccountOpening {
    ghost limits = { opening_within };

    fn within_limits(&self) -> bool {
        (1..=MAX_ACCOUNT).contains(&self.account)
            && self.supplier >= 1
            && self.capacity <= MAX_CAPACITY
            && self.storage <= self.capacity
    }
}

impl Limited for AccountMove {
    ghost limits = { move_within };

    fn within_limits(&self) -> bool {
        (1..=MAX_ACCOUNT).contains(&self.account) && self.supplier >= 1
    }
}

impl Limited for GasCost {
    ghost limits = { gas_cost_within };

    fn within_limits(&self) -> bool {
        self.gas_cost <= MAX_PRICE
    }
}

impl Limited for PriceQuote {
    ghost limits = { price_within };

    fn within_limits(&self) -> bool {
        (1..=LAST_DAY).contains(&self.day) && self.index <= MAX_PRICE && self.market <= MAX_PRICE
    }
}

impl Limited for DayBegin {
    ghost limits = { day_begin_within };

    fn within_limits(&self) -> bool {
        (1..=LAST_DAY).contains(&self.day) && self.kind <= CRITICAL
    }
}

impl Limited for Line {
    ghost limits = { line_within };

    fn within_limits(&self) -> bool {
        (1..=MAX_ACCOUNT).contains(&self.account)
            && (1..=PIPELINES).contains(&self.pipeline)
            && self.therms <= MAX_LINE_THERMS
    }
}

impl Limited for Nomination {
    ghost limits = { nomination_within };

    fn within_limits(&self) -> bool {
        self.line.within_limits() && self.minute <= LAST_MINUTE
    }
}

// Three kinds have no fields. A body of the trait's own is proved for any limits, so it cannot be their `true`.
impl Limited for DayEnd {
    ghost limits = { day_end_within };

    fn within_limits(&self) -> bool {
        true
    }
}

fn lines_within(lines: &[Line]) -> bool
    ensures { result ≡ list_all line_within lines.now }
{
    lines.iter().all(|line| line.within_limits())
}

fn lines_blank(lines: &[Line]) -> bool
    ensures { result ≡ list_all is_blank lines.now }
{
    lines.iter().all(|line| *line == BLANK)
}

impl Limited for Reallocation {
    ghost limits = { reallocation_within };

    fn within_limits(&self) -> bool {
        self.supplier >= 1
            && self.minute <= LAST_MINUTE
            && (1..=MAX_SHIFTS).contains(&self.count)
            && lines_within(self.named_lines())
            && lines_blank(&self.lines[usize::from(self.count)..])
    }
}

impl Limited for MeterReading {
    ghost limits = { reading_within };

    fn within_limits(&self) -> bool {
        (1..=MAX_ACCOUNT).contains(&self.account) && self.therms <= MAX_DAY_THERMS
    }
}

impl Limited for DaySettle {
    ghost limits = { settle_within };

    fn within_limits(&self) -> bool {
        true
    }
}

impl Limited for MonthClosing {
    ghost limits = { closing_within };

    fn within_limits(&self) -> bool {
        true
    }
}

impl Limited for PostedMaxima {
    ghost limits = { posting_within };

    fn within_limits(&self) -> bool {
        (1..=LAST_DAY).contains(&self.day)
            && self.max_injection <= MAX_POSTING
            && self.max_withdrawal <= MAX_POSTING
    }
}

impl Limited for Call {
    ghost limits = { within };

    fn within_limits(&self) -> bool {
        match self {
            Call::BeginMonth(c) => c.within_limits(),
            Call::OpenAccount(c) => c.within_limits(),
            Call::MoveAccount(c) => c.within_limits(),
            Call::SetGasCost(c) => c.within_limits(),
            Call::SetPrice(c) => c.within_limits(),
            Call::BeginDay(c) => c.within_limits(),
            Call::Nominate(c) => c.within_limits(),
            Call::EndDay(c) => c.within_limits(),
            Call::Reallocate(c) => c.within_limits(),
            Call::Read(c) => c.within_limits(),
            Call::Settle(c) => c.within_limits(),
            Call::Close(c) => c.within_limits(),
            Call::Post(c) => c.within_limits(),
        }
    }
}
