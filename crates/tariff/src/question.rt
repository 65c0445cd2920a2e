//! What a day rule is given. Outside the limits no `Question` can be made.
ghost use Rattle.std.specs.Prelude.{◌≡◌, true};
ghost use Rattle.std.specs.Option.{option_map};
ghost use Rattle.tariff.specs.Figures.{fair, fairly};
ghost use Rattle.tariff.specs.Ordinary.{surplus, shortage, free};

pub const LAST_DAY: u8 = 31;

/// Most therms that an account can be delivered, or use, in a day.
pub const MAX_DAY_THERMS: u32 = 8_000_000;

pub const MAX_CAPACITY: u32 = 100_000_000;

/// One account's gas day in figures: the day's number, then therms.
#[derive(Clone, Copy, PartialEq, Eq, Debug)]
pub struct Figures {
    pub day: u8,
    pub delivered: u32,
    pub used: u32,
    pub storage: u32,
    pub capacity: u32,
    pub max_injection: u32,
    pub max_withdrawal: u32,
}

/// Figures within their limits.
#[derive(Clone, Copy, PartialEq, Eq, Debug)]
pub struct Question {
    pub(crate) figures: Figures,
    ghost fair: { fair figures ≡ true },
}

impl Figures {
    /// What is delivered past use.
    pub(crate) fn surplus(&self) -> u32
        ensures { result ≡ surplus self.now }
    {
        self.delivered.saturating_sub(self.used)
    }

    /// What is used past delivery.
    pub(crate) fn shortage(&self) -> u32
        ensures { result ≡ shortage self.now }
    {
        self.used.saturating_sub(self.delivered)
    }

    /// What storage has room for.
    pub(crate) fn free(&self) -> u32
        ensures { result ≡ free self.now }
    {
        self.capacity.saturating_sub(self.storage)
    }
}

impl Question {
    /// The question of these figures; none outside the limits.
    pub fn new(figures: Figures) -> Option<Question>
        ensures { option_map (λ q. q.figures) result ≡ fairly figures }
    {
        if (1..=LAST_DAY).contains(&figures.day)
            && figures.delivered <= MAX_DAY_THERMS
            && figures.used <= MAX_DAY_THERMS
            && figures.capacity <= MAX_CAPACITY
            && figures.storage <= figures.capacity
            && figures.max_injection <= figures.capacity
            && figures.max_withdrawal <= figures.capacity
        {
            Some(Question { figures })
        } else {
            None
        }
    }

    pub fn figures(&self) -> Figures
        ensures { result ≡ self.now.figures }
    {
        self.figures
    }
}
