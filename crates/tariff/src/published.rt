//! The published daily maxima and month-end bands.
ghost use Rattle.std.specs.Prelude.{◌≡◌, ◌-◌, ◌*◌, ◌/◌, ◌<◌, ◌≤◌, true};
ghost use Rattle.tariff.specs.Each.{each};
ghost use Rattle.tariff.specs.Published.{daily_maxima, month_end_bands, maxima_bounded, band_bounded, share, maxima_of, band_of};

use crate::calendar::Month;

/// A whole in hundredths of a percent.
pub(crate) const HUNDREDTHS: u16 = 10_000;

/// A whole in percent.
pub(crate) const PERCENT: u16 = 100;

/// The most that storage takes and gives in a day: in therms, or in hundredths of a percent of capacity.
#[derive(Clone, Copy, PartialEq, Eq, Debug)]
pub struct Maxima<N> {
    pub injection: N,
    pub withdrawal: N,
}

/// The least and the most in storage at a month's end: in therms, or in percent of capacity.
#[derive(Clone, Copy, PartialEq, Eq, Debug)]
pub struct Band<N> {
    pub lowest: N,
    pub highest: N,
}

const DAILY_MAXIMA: [Maxima<u16>; 12] = [
    Maxima {
        injection: 30,
        withdrawal: 100,
    },
    Maxima {
        injection: 30,
        withdrawal: 85,
    },
    Maxima {
        injection: 30,
        withdrawal: 60,
    },
    Maxima {
        injection: 30,
        withdrawal: 30,
    },
    Maxima {
        injection: 45,
        withdrawal: 30,
    },
    Maxima {
        injection: 50,
        withdrawal: 30,
    },
    Maxima {
        injection: 45,
        withdrawal: 30,
    },
    Maxima {
        injection: 70,
        withdrawal: 30,
    },
    Maxima {
        injection: 70,
        withdrawal: 30,
    },
    Maxima {
        injection: 70,
        withdrawal: 30,
    },
    Maxima {
        injection: 30,
        withdrawal: 40,
    },
    Maxima {
        injection: 30,
        withdrawal: 85,
    },
];

const MONTH_END_BANDS: [Band<u16>; 12] = [
    Band {
        lowest: 35,
        highest: 45,
    },
    Band {
        lowest: 10,
        highest: 25,
    },
    Band {
        lowest: 0,
        highest: 10,
    },
    Band {
        lowest: 0,
        highest: 10,
    },
    Band {
        lowest: 10,
        highest: 20,
    },
    Band {
        lowest: 20,
        highest: 30,
    },
    Band {
        lowest: 30,
        highest: 40,
    },
    Band {
        lowest: 50,
        highest: 60,
    },
    Band {
        lowest: 70,
        highest: 80,
    },
    Band {
        lowest: 85,
        highest: 100,
    },
    Band {
        lowest: 75,
        highest: 90,
    },
    Band {
        lowest: 55,
        highest: 70,
    },
];

/// So many parts of a whole, of a number of therms, rounded down.
pub(crate) fn part_of<const WHOLE: u16>(therms: u32, parts: u16) -> u32
    requires whole { 0 < WHOLE }
    requires part { parts ≤ WHOLE }
    ensures value { result ≡ therms * parts / WHOLE }
    ensures high { result ≤ therms }
{
    (u64::from(therms) * u64::from(parts) / u64::from(WHOLE)) as u32
}

fn daily_maxima() -> &'static [Maxima<u16>; 12]
    ensures table { result.now ≡ daily_maxima }
    ensures bounds { each maxima_bounded result.now ≡ true }
{
    &DAILY_MAXIMA
}

fn month_end_bands() -> &'static [Band<u16>; 12]
    ensures table { result.now ≡ month_end_bands }
    ensures bounds { each band_bounded result.now ≡ true }
{
    &MONTH_END_BANDS
}

impl Maxima<u16> {
    /// The therms that these shares of a capacity come to.
    pub(crate) fn of(&self, capacity: u32) -> Maxima<u32>
        requires { (self.now.injection ≤ 10000) × (self.now.withdrawal ≤ 10000) }
        ensures injection { result.injection ≡ share capacity self.now.injection }
        ensures withdrawal { result.withdrawal ≡ share capacity self.now.withdrawal }
        ensures within { (result.injection ≤ capacity) × (result.withdrawal ≤ capacity) }
    {
        Maxima {
            injection: part_of::<HUNDREDTHS>(capacity, self.injection),
            withdrawal: part_of::<HUNDREDTHS>(capacity, self.withdrawal),
        }
    }
}

impl Month {
    /// The month's place in a table of twelve rows.
    fn place(&self) -> usize
        ensures value { result ≡ self.now.number - 1 }
        ensures high { result < 12 }
    {
        usize::from(self.number) - 1
    }

    /// The month's published maxima of a day, for an account of that capacity.
    pub fn maxima(&self, capacity: u32) -> Maxima<u32>
        ensures value { result ≡ maxima_of self.now.number capacity }
        ensures within { (result.injection ≤ capacity) × (result.withdrawal ≤ capacity) }
    {
        daily_maxima()[self.place()].of(capacity)
    }

    /// The month's band of storage at its end, for an account of that capacity.
    pub fn band(&self, capacity: u32) -> Band<u32>
        ensures value { result ≡ band_of self.now.number capacity }
        ensures within { (result.lowest ≤ result.highest) × (result.highest ≤ capacity) }
    {
        let row = month_end_bands()[self.place()];
        Band {
            lowest: part_of::<PERCENT>(capacity, row.lowest),
            highest: part_of::<PERCENT>(capacity, row.highest),
        }
    }
}
