//! What a refused call returns: each case holds what it names.
ghost use Rattle.std.specs.Prelude.{◌≡◌};
ghost use Rattle.calls.specs.declared.refusal.Refusal.TheVariants.{NoSpace};
ghost use Rattle.calls.specs.Refusals.{number_of, named_of, posting_number};

use register::table::Untaken;

/// Why the book refuses a call.
#[derive(Clone, Copy, PartialEq, Eq, Debug)]
pub enum Refusal {
    OutsideLimits,
    WrongStage,
    NoAccount { account: u32 },
    AlreadyOpen { account: u32 },
    GasCostGiven,
    PriceGiven { day: u8 },
    ReadingGiven { account: u32 },
    LineRepeated { account: u32 },
    NoSpace,
    OutsideWindow,
    NotDue,
    OutOfSeason,
    OtherSupplier { account: u32 },
    TotalChanged { pipeline: u8 },
    PriceMissing,
    ReadingMissing { account: u32 },
}

/// Why the posting layer refuses a posting.
#[derive(Clone, Copy, PartialEq, Eq, Debug)]
pub enum PostingRefusal {
    WrongStage,
    NotDue,
}

/// What a register has no room for, the book has no space for.
impl From<Untaken> for Refusal {
    ghost from_gives = { λ _ refusal. refusal ≡ NoSpace };

    fn from(untaken: Untaken) -> Refusal {
        match untaken {
            Untaken::Full => Refusal::NoSpace,
        }
    }
}

// Numbers beside the enum: what a fault prints is known to its readers by a number, and 0 stands where nothing is named.
impl Refusal {
    /// The number by which the refusal is known.
    pub fn number(&self) -> u8
        ensures { result ≡ number_of self.now }
    {
        match *self {
            Refusal::OutsideLimits => 3,
            Refusal::WrongStage => 4,
            Refusal::NoAccount { .. } => 5,
            Refusal::AlreadyOpen { .. } => 6,
            Refusal::GasCostGiven => 6,
            Refusal::PriceGiven { .. } => 6,
            Refusal::ReadingGiven { .. } => 6,
            Refusal::LineRepeated { .. } => 6,
            Refusal::NoSpace => 7,
            Refusal::OutsideWindow => 8,
            Refusal::NotDue => 9,
            Refusal::OutOfSeason => 10,
            Refusal::OtherSupplier { .. } => 11,
            Refusal::TotalChanged { .. } => 12,
            Refusal::PriceMissing => 13,
            Refusal::ReadingMissing { .. } => 14,
        }
    }

    /// The account, day or pipeline that it names; 0 where it names none.
    pub fn named(&self) -> u32
        ensures { result ≡ named_of self.now }
    {
        match *self {
            Refusal::NoAccount { account } => account,
            Refusal::AlreadyOpen { account } => account,
            Refusal::PriceGiven { day } => u32::from(day),
            Refusal::ReadingGiven { account } => account,
            Refusal::LineRepeated { account } => account,
            Refusal::OtherSupplier { account } => account,
            Refusal::TotalChanged { pipeline } => u32::from(pipeline),
            Refusal::ReadingMissing { account } => account,
            _ => 0,
        }
    }
}

// Numbers beside the enum, as at `Refusal`: a fault prints them.
impl PostingRefusal {
    pub fn number(&self) -> u8
        ensures { result ≡ posting_number self.now }
    {
        match *self {
            PostingRefusal::WrongStage => 4,
            PostingRefusal::NotDue => 9,
        }
    }
}
