//! The records that the book keeps.
ghost use Rattle.std.specs.Prelude.{◌≡◌};
ghost use Rattle.ledger.specs.Effects.{opened};
ghost use Rattle.ledger.specs.Kinds.{Numbers};

use calls::fields::AccountOpening;
use register::keyed::Keyed;
use tariff::calendar::Date;
use tariff::tiers::Tiers;

/// An account; its reading is absent until the meter brings it.
#[derive(Clone, Copy, PartialEq, Eq, Debug)]
pub struct Account {
    pub number: u32,
    pub supplier: u16,
    pub capacity: u32,
    pub storage: u32,
    pub reading: Option<u32>,
}

/// An account as it opens.
impl From<AccountOpening> for Account {
    ghost from_gives = { λ c account. account ≡ opened c };

    fn from(c: AccountOpening) -> Account {
        Account {
            number: c.account,
            supplier: c.supplier,
            capacity: c.capacity,
            storage: c.storage,
            reading: None,
        }
    }
}

/// The kind of a gas day.
#[derive(Clone, Copy, PartialEq, Eq, Debug)]
pub enum DayKind {
    Ordinary,
    Critical,
}

/// A number that is no kind of a gas day.
#[derive(Clone, Copy, PartialEq, Eq, Debug)]
pub struct UnknownKind(pub u8);

impl TryFrom<u8> for DayKind {
    type Error = UnknownKind;

    ghost try_from_gives = { Numbers };

    fn try_from(number: u8) -> Result<Self, UnknownKind> {
        match number {
            0 => Ok(DayKind::Ordinary),
            1 => Ok(DayKind::Critical),
            _ => Err(UnknownKind(number)),
        }
    }
}

/// Where the book stands.
#[derive(Clone, Copy, PartialEq, Eq, Debug)]
pub enum Stage {
    Unopened,
    Between,
    Nominating(DayKind),
    Ended(DayKind),
    Closed,
}

/// Whether a row is a settled day's or a month's close.
#[derive(Clone, Copy, PartialEq, Eq, Debug)]
pub enum RowKind {
    Day,
    Close,
}

/// A row of the journal: therms, wide enough to be summed over many months, and cents with their sign.
#[derive(Clone, Copy, PartialEq, Eq, Debug)]
pub struct Row {
    pub kind: RowKind,
    pub date: Date,
    pub account: u32,
    pub supplier: u16,
    pub delivered: u64,
    pub used: u64,
    pub injected: u64,
    pub withdrawn: u64,
    pub bought: Tiers<u64>,
    pub sold: Tiers<u64>,
    pub authorized: u64,
    pub unauthorized: u64,
    pub storage_after: u64,
    pub cents: i64,
}

/// Accounts go by number.
impl Keyed for Account {
    ghost key = { λ a. a.number };

    fn key(&self) -> u64 {
        u64::from(self.number)
    }
}
