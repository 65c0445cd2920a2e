//! The readings of all accounts. It only looks.
ghost use Rattle.std.specs.Prelude.{◌≡◌};
ghost use Rattle.ledger.specs.Table.{unread};

use ledger::records::Account;

/// The first account without a reading; none where all have theirs.
pub fn first_unread(accounts: &[Account]) -> Option<Account>
    ensures { result ≡ unread accounts.now }
{
    let account = accounts.iter().find(|account| account.reading.is_none())?;
    Some(*account)
}
