//! Accounts: opened, moved, read.
ghost use Rattle.std.specs.Prelude.{◌≡◌, true, is_some, cond, Some, None, Ok, Err};
ghost use Rattle.register.specs.Keys.{put};
ghost use Rattle.register.specs.Views.{held};
ghost use Rattle.calls.specs.declared.fields.Call.TheVariants.{OpenAccount, MoveAccount, Read};
ghost use Rattle.ledger.specs.State.{number, account_at, known};
ghost use Rattle.ledger.specs.Effects.{with_accounts, opened, moved, read, change_account};
ghost use Rattle.tables.specs.States.{state_of, left_by, later_answer, known_account, Untouched};

use super::Tables;
use calls::fields::{AccountMove, AccountOpening, MeterReading};
use calls::refusal::Refusal;
use ledger::records::Account;

/// A book has at most so many accounts, whatever was lent.
pub(crate) const MAX_ACCOUNTS: usize = 600;

impl<'a> Tables<'a> {
    pub fn open_account(&mut self, c: &AccountOpening) -> Result<usize, Refusal>
        ensures after { state_of self.new ≡ left_by (state_of self.old) (OpenAccount c.now) (with_accounts (put number (opened c.now) (state_of self.old).accounts) (state_of self.old)) }
        ensures answer { result ≡ later_answer (state_of self.old) (OpenAccount c.now) }
        ensures unchanged { Untouched result self.old self.new }
    {
        if self.accounts.look(u64::from(c.account)).is_some() {
            return Err(Refusal::AlreadyOpen { account: c.account });
        }
        if self.accounts.all().len() >= MAX_ACCOUNTS {
            return Err(Refusal::NoSpace);
        }
        self.accounts.set(Account::from(*c))?;
        Ok(0)
    }

    /// The account of that number.
    pub fn account(&self, number: u32) -> Result<Account, Refusal>
        ensures { result ≡ known_account number (account_at number (state_of self.now).accounts) }
    {
        let account = self.accounts.look(u64::from(number));
        account.ok_or(Refusal::NoAccount { account: number })
    }

    /// Puts a changed account in the place of the one with its number.
    fn change(&mut self, account: Account)
        requires { known account.number (held self.old.accounts.shelf) ≡ true }
        ensures { state_of self.new ≡ with_accounts (put number account (state_of self.old).accounts) (state_of self.old) }
    {
        self.accounts.set(account).unwrap();
    }

    pub fn move_account(&mut self, c: &AccountMove) -> Result<usize, Refusal>
        ensures after { state_of self.new ≡ left_by (state_of self.old) (MoveAccount c.now) (with_accounts (change_account c.now.account (moved c.now.supplier) (state_of self.old).accounts) (state_of self.old)) }
        ensures answer { result ≡ later_answer (state_of self.old) (MoveAccount c.now) }
        ensures unchanged { Untouched result self.old self.new }
    {
        let mut account = self.account(c.account)?;
        account.supplier = c.supplier;
        self.change(account);
        Ok(0)
    }

    pub fn take_reading(&mut self, c: &MeterReading) -> Result<usize, Refusal>
        ensures after { state_of self.new ≡ left_by (state_of self.old) (Read c.now) (with_accounts (change_account c.now.account (read c.now.therms) (state_of self.old).accounts) (state_of self.old)) }
        ensures answer { result ≡ later_answer (state_of self.old) (Read c.now) }
        ensures unchanged { Untouched result self.old self.new }
    {
        let mut account = self.account(c.account)?;
        if account.reading.is_some() {
            return Err(Refusal::ReadingGiven { account: c.account });
        }
        account.reading = Some(c.therms);
        self.change(account);
        Ok(0)
    }
}
