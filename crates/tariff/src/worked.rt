//! The worked sums, as one checked list.
ghost use Rattle.std.specs.Prelude.{◌≡◌};
ghost use Rattle.tariff.specs.Worked.{Worked};

/// Answers how many worked sums there are, and promises that the definitions give each.
pub fn worked_sums() -> u8
    ensures count { result ≡ 14 }
    ensures worked { Worked }
{
    14
}
