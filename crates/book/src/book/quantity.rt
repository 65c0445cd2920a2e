//! How much to nominate for an account.
ghost use Rattle.book.specs.Books.{state_of};
ghost use Rattle.book.specs.Quantity.{QuantityAnswers};

use super::Book;
use crate::request::DeliveryRequest;
use calls::limits::Limited;
use calls::refusal::Refusal;
use ledger::records::Stage;

impl<'a> Book<'a> {
    /// Answers a delivery before loss, from the used therms to 8,000,000, with which the ordinary rule sells nothing and storage is filled
    /// as far as it can take.
    pub fn quantity(&self, request: &DeliveryRequest) -> Result<u32, Refusal>
        ensures { QuantityAnswers (state_of self.now) request.now result }
    {
        if !request.within_limits() {
            return Err(Refusal::OutsideLimits);
        }
        if self.tables.stage == Stage::Unopened {
            return Err(Refusal::WrongStage);
        }
        let account = self.tables.account(request.account)?;
        Ok(request.filling_delivery(self.tables.loss, &account))
    }
}
