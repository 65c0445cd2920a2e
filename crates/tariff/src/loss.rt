//! The loss between pipeline and meter.
ghost use Rattle.std.specs.Prelude.{◌≡◌, ◌≤◌, nat_le};
ghost use Rattle.std.specs.Option.{option_map};
ghost use Rattle.tariff.specs.Options.{when};
ghost use Rattle.tariff.specs.Loss.{most_loss, after_loss};

use crate::published::{HUNDREDTHS, part_of};

pub const MAX_LOSS: u16 = 2_000;

/// A month's loss, at most 20 percent.
#[derive(Clone, Copy, PartialEq, Eq, Debug)]
pub struct Loss {
    hundredths: u16,
    ghost high: { hundredths ≤ 2000 },
}

impl Loss {
    /// A loss in hundredths of a percent; none past the limit.
    pub fn new(hundredths: u16) -> Option<Loss>
        ensures { option_map (λ loss. loss.hundredths) result ≡ when (nat_le hundredths most_loss) hundredths }
    {
        if hundredths <= MAX_LOSS {
            Some(Loss { hundredths })
        } else {
            None
        }
    }

    /// What is delivered of an account's lines, added up.
    pub fn delivered(&self, therms: u32) -> u32
        ensures value { result ≡ after_loss self.now.hundredths therms }
        ensures high { result ≤ therms }
    {
        part_of::<HUNDREDTHS>(therms, HUNDREDTHS - self.hundredths)
    }
}
