//! A request for a delivery that an account can take in.

pub(crate) mod filling;

/// An account, the therms that it will use, and the day's maxima in hundredths of a percent of capacity.
#[derive(Clone, Copy, PartialEq, Eq, Debug)]
pub struct DeliveryRequest {
    pub account: u32,
    pub used: u32,
    pub max_injection: u16,
    pub max_withdrawal: u16,
}
