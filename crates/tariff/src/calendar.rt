//! Gas months and dates. A `Month` is always one of the calendar, from January 2024 to December 2099.
ghost use Rattle.std.specs.Prelude.{◌≡◌, ℕ, ◌≤◌};
ghost use Rattle.std.specs.Option.{option_map};
ghost use Rattle.tariff.specs.Options.{when};
ghost use Rattle.tariff.specs.Calendar.{in_calendar, days_in, critical_season, following, date, date_in};

pub const FIRST_YEAR: u16 = 2024;

pub const LAST_YEAR: u16 = 2099;

/// A calendar day.
#[derive(Clone, Copy, PartialEq, Eq, PartialOrd, Ord, Debug)]
pub struct Date {
    pub year: u16,
    pub month: u8,
    pub day: u8,
}

/// A month of the calendar.
#[derive(Clone, Copy, PartialEq, Eq, PartialOrd, Ord, Debug)]
pub struct Month {
    pub(crate) year: u16,
    pub(crate) number: u8,
    ghost year_low: { 2024 ≤ year },
    ghost year_high: { year ≤ 2099 },
    ghost number_low: { 1 ≤ number },
    ghost number_high: { number ≤ 12 },
}

impl Month {
    /// The month of that year and number; none outside the calendar.
    pub fn new(year: u16, number: u8) -> Option<Month>
        ensures { option_map {U = ℕ × ℕ} (λ m. (m.year, m.number)) result ≡ when (in_calendar year number) (year, number) }
    {
        if (FIRST_YEAR..=LAST_YEAR).contains(&year) && (1..=12).contains(&number) {
            Some(Month { year, number })
        } else {
            None
        }
    }

    /// The year, and the month's number from 1 for January to 12 for December.
    pub fn year_and_number(&self) -> (u16, u8)
        ensures { result ≡ (self.now.year, self.now.number) }
    {
        (self.year, self.number)
    }

    /// How many days the month has: the number of its last day.
    pub fn days(&self) -> u8
        ensures { result ≡ days_in self.now.year self.now.number }
    {
        match self.number {
            2 => { if self.year % 4 == 0 { 29 } else { 28 } }
            4 | 6 | 9 | 11 => 30,
            _ => 31,
        }
    }

    /// Whether the Company may declare Critical Days in the month: from November to April.
    pub fn in_critical_season(&self) -> bool
        ensures { result ≡ critical_season self.now.number }
    {
        self.number <= 4 || self.number >= 11
    }

    /// The following month; none follows December 2099.
    pub fn next(&self) -> Option<Month>
        ensures { option_map {U = ℕ × ℕ} (λ m. (m.year, m.number)) result ≡ following self.now.year self.now.number }
    {
        Month::new(self.year, self.number + 1).or_else(|| Month::new(self.year + 1, 1))
    }

    /// The date that a day number makes with the month, past the month's end or not.
    pub(crate) fn dated(&self, day: u8) -> Date
        ensures { result ≡ date self.now.year self.now.number day }
    {
        Date {
            year: self.year,
            month: self.number,
            day,
        }
    }

    /// The date of a day number; none past the month's end.
    pub fn date(&self, day: u8) -> Option<Date>
        ensures { result ≡ date_in self.now.year self.now.number day }
    {
        (1..=self.days()).contains(&day).then_some(self.dated(day))
    }

    /// The date of the month's last day.
    pub fn last_day(&self) -> Date
        ensures { result ≡ date self.now.year self.now.number (days_in self.now.year self.now.number) }
    {
        self.dated(self.days())
    }
}
