//! Rows written out: the account's own columns, and what came of its day or close. Nothing is worked out here.
ghost use Rattle.std.specs.Prelude.{◌≡◌};
ghost use Rattle.ledger.specs.Terms.{row_on, row_of_close};

use ledger::records::{Account, Row, RowKind};
use tariff::calendar::Date;
use tariff::closing::MonthClose;
use tariff::question::Figures;
use tariff::settling::SettledDay;

/// The row of a settled day.
pub(crate) fn settled_row(
    date: Date,
    account: &Account,
    question: &Figures,
    day: &SettledDay,
) -> Row
    ensures { result ≡ row_on date account.now question.now day.now }
{
    Row {
        kind: RowKind::Day,
        date,
        account: account.number,
        supplier: account.supplier,
        delivered: u64::from(question.delivered),
        used: u64::from(question.used),
        injected: u64::from(day.answer.injected),
        withdrawn: u64::from(day.answer.withdrawn),
        bought: day.answer.bought.into(),
        sold: day.answer.sold.into(),
        authorized: u64::from(day.answer.authorized),
        unauthorized: u64::from(day.answer.unauthorized),
        storage_after: u64::from(day.storage_after),
        cents: day.cents,
    }
}

/// The row of a close; a close has no day's columns.
pub(crate) fn closed_row(date: Date, account: &Account, close: &MonthClose) -> Row
    ensures { result ≡ row_of_close date account.now close.now }
{
    Row {
        kind: RowKind::Close,
        date,
        account: account.number,
        supplier: account.supplier,
        delivered: 0,
        used: 0,
        injected: 0,
        withdrawn: 0,
        bought: close.bought.into(),
        sold: close.sold.into(),
        authorized: 0,
        unauthorized: 0,
        storage_after: u64::from(close.storage_after),
        cents: close.cents,
    }
}
