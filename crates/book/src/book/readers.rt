//! What the book holds, for reading.
ghost use Rattle.std.specs.Prelude.{◌≡◌};
ghost use Rattle.ledger.specs.Claim.{statement};
ghost use Rattle.book.specs.Books.{state_of, day_due};

use super::Book;
use calls::fields::Line;
use ledger::records::{Account, Row, Stage};
use settling::statement::statement_of;
use tariff::calendar::Date;

impl<'a> Book<'a> {
    /// The journal: every row, in the order of writing.
    pub fn rows(&self) -> &[Row]
        ensures { result.now ≡ (state_of self.now).rows }
    {
        self.tables.rows.all()
    }

    /// The accounts, by rising number.
    pub fn accounts(&self) -> &[Account]
        ensures { result.now ≡ (state_of self.now).accounts }
    {
        self.tables.accounts.all()
    }

    /// The day's lines, by rising account and pipeline.
    pub fn lines(&self) -> &[Line]
        ensures { result.now ≡ (state_of self.now).lines }
    {
        self.tables.lines.all()
    }

    /// Where the book stands.
    pub fn stage(&self) -> Stage
        ensures { result ≡ (state_of self.now).stage }
    {
        self.tables.stage
    }

    /// The gas day under way, or the one due next; none before the first month and once all days of the month are settled.
    pub fn date(&self) -> Option<Date>
        ensures { result ≡ day_due (state_of self.now) }
    {
        match self.tables.stage {
            Stage::Unopened => None,
            _ => self.tables.calendar_month().date(self.tables.settled + 1),
        }
    }

    /// What a supplier owes, or is owed: the cents of all its rows.
    pub fn statement(&self, supplier: u16) -> i64
        ensures { result ≡ statement (state_of self.now).rows supplier }
    {
        statement_of(self.tables.rows.all(), supplier)
    }
}
