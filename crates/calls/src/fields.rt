//! A struct of fields for each kind of call.

/// Most lines that one reallocation can name.
pub const MAX_SHIFTS: u8 = 200;

/// Opens the year's month, with its loss in hundredths of a percent.
#[derive(Clone, Copy, PartialEq, Eq, Debug)]
pub struct MonthBegin {
    pub year: u16,
    pub month: u8,
    pub loss: u16,
}

/// Opens an account.
#[derive(Clone, Copy, PartialEq, Eq, Debug)]
pub struct AccountOpening {
    pub account: u32,
    pub supplier: u16,
    pub capacity: u32,
    pub storage: u32,
}

/// Moves an account to another supplier.
#[derive(Clone, Copy, PartialEq, Eq, Debug)]
pub struct AccountMove {
    pub account: u32,
    pub supplier: u16,
}

/// The month's gas cost, in hundredths of a cent per therm.
#[derive(Clone, Copy, PartialEq, Eq, Debug)]
pub struct GasCost {
    pub gas_cost: u32,
}

/// A day's index and market price, in hundredths of a cent per therm.
#[derive(Clone, Copy, PartialEq, Eq, Debug)]
pub struct PriceQuote {
    pub day: u8,
    pub index: u32,
    pub market: u32,
}

/// Begins a gas day: kind 0 is ordinary, 1 is Critical.
// The kind is a byte and no enum: any byte may come, and a call past its limits is a call too.
#[derive(Clone, Copy, PartialEq, Eq, Debug)]
pub struct DayBegin {
    pub day: u8,
    pub kind: u8,
}

/// One account's therms on one pipeline.
#[derive(Clone, Copy, PartialEq, Eq, Debug)]
pub struct Line {
    pub account: u32,
    pub pipeline: u8,
    pub therms: u32,
}

/// Nominates a line, at a minute of the day.
#[derive(Clone, Copy, PartialEq, Eq, Debug)]
pub struct Nomination {
    pub line: Line,
    pub minute: u16,
}

/// Ends the gas day.
#[derive(Clone, Copy, PartialEq, Eq, Debug)]
pub struct DayEnd {}

/// Shifts a supplier's therms among its lines, at a minute of the day: the first `count` lines count, the others are blank.
// An array and no `Vec`: a call is a plain value with no heap, and any count may come.
#[derive(Clone, Copy, PartialEq, Eq, Debug)]
pub struct Reallocation {
    pub supplier: u16,
    pub minute: u16,
    pub count: u8,
    pub lines: [Line; 200],
}

impl Reallocation {
    ghost use Rattle.std.specs.Prelude.{◌≡◌};
    ghost use Rattle.calls.specs.Limits.{named_lines};

    /// The lines that it names: the first `count` of its places.
    pub fn named_lines(&self) -> &[Line]
        ensures { result.now ≡ named_lines self.now }
    {
        let places = self.lines.as_slice();
        &places[..usize::from(self.count).min(places.len())]
    }
}

/// What an account's meter read for the day.
#[derive(Clone, Copy, PartialEq, Eq, Debug)]
pub struct MeterReading {
    pub account: u32,
    pub therms: u32,
}

/// Settles the gas day.
#[derive(Clone, Copy, PartialEq, Eq, Debug)]
pub struct DaySettle {}

/// Closes the month.
#[derive(Clone, Copy, PartialEq, Eq, Debug)]
pub struct MonthClosing {}

/// Posts a day's maxima, in hundredths of a percent of capacity.
#[derive(Clone, Copy, PartialEq, Eq, Debug)]
pub struct PostedMaxima {
    pub day: u8,
    pub max_injection: u16,
    pub max_withdrawal: u16,
}

/// Every kind of call. A posting goes to the posting layer, all others to the book.
#[derive(Clone, Copy, PartialEq, Eq, Debug)]
pub enum Call {
    BeginMonth(MonthBegin),
    OpenAccount(AccountOpening),
    MoveAccount(AccountMove),
    SetGasCost(GasCost),
    SetPrice(PriceQuote),
    BeginDay(DayBegin),
    Nominate(Nomination),
    EndDay(DayEnd),
    Reallocate(Reallocation),
    Read(MeterReading),
    Settle(DaySettle),
    Close(MonthClosing),
    Post(PostedMaxima),
}
