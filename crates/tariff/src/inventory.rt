//! An account's storage beside its capacity. An `Inventory` never holds more than its capacity.
ghost use Rattle.std.specs.Prelude.{◌≡◌, ℕ, ◌≤◌, ◌&&◌, nat_le};
ghost use Rattle.std.specs.Option.{option_map};
ghost use Rattle.tariff.specs.Options.{when};

use crate::question::MAX_CAPACITY;

/// Therms in storage, and the most that storage may hold.
#[derive(Clone, Copy, PartialEq, Eq, Debug)]
pub struct Inventory {
    pub(crate) storage: u32,
    pub(crate) capacity: u32,
    ghost storage_high: { storage ≤ capacity },
    ghost capacity_high: { capacity ≤ 100000000 },
}

impl Inventory {
    /// Storage and capacity of an account; none outside the limits.
    pub fn new(storage: u32, capacity: u32) -> Option<Inventory>
        ensures { option_map {U = ℕ × ℕ} (λ i. (i.storage, i.capacity)) result ≡ when (nat_le storage capacity && nat_le capacity 100000000) (storage, capacity) }
    {
        if storage <= capacity && capacity <= MAX_CAPACITY {
            Some(Inventory { storage, capacity })
        } else {
            None
        }
    }
}
