//! A request's limits, and the delivery that fills storage and no more.
ghost use Rattle.std.specs.Prelude.{◌≡◌, ◌≤◌, true};
ghost use Rattle.ledger.specs.Safety.{account_within};
ghost use Rattle.book.specs.Quantity.{request_within, Serves};

use super::DeliveryRequest;
use calls::limits::{Limited, MAX_ACCOUNT};
use ledger::records::Account;
use tariff::posting::MAX_POSTING;
use tariff::question::MAX_DAY_THERMS;

impl Limited for DeliveryRequest {
    ghost limits = { request_within };

    fn within_limits(&self) -> bool {
        (1..=MAX_ACCOUNT).contains(&self.account)
            && self.used <= MAX_DAY_THERMS
            && self.max_injection <= MAX_POSTING
            && self.max_withdrawal <= MAX_POSTING
    }
}

impl DeliveryRequest {
    /// The delivery that, after loss, covers the use and what storage can take.
    // The share of capacity is worked out here: the tariff hands shares out only as a month's or a posted day's maxima.
    // `as` widens here: with `u64::from` in its place the proof did not close.
    pub(crate) fn filling_delivery(&self, loss: u16, account: &Account) -> u32
        requires request { request_within self.now ≡ true }
        requires loss { loss ≤ 2000 }
        requires account { account_within account.now ≡ true }
        ensures { Serves loss self.now account.now result }
    {
        let capacity = account.capacity as u64;
        let max_injection = capacity * self.max_injection as u64 / 10_000;
        let can_take = max_injection.min(capacity - account.storage as u64);
        let wanted = self.used as u64 + can_take;
        let therms = wanted * 10_000 / (10_000 - loss as u64);
        therms.min(MAX_DAY_THERMS as u64) as u32
    }
}
