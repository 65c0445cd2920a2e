//! The walk over all accounts, with their lines beside them: both stand sorted, so each account's lines are the next ones. It never leaves
//! an account out, and never looks at an account twice.
ghost use Rattle.std.specs.Prelude.{◌≡◌, ℕ, ◌+◌, ◌≤◌, Bool, true, ◌++◌, map, length, nat_le};
ghost use Rattle.tariff.specs.Each.{each};
ghost use Rattle.register.specs.Views.{held, room};
ghost use Rattle.ledger.specs.declared.records.Account.{Account};
ghost use Rattle.ledger.specs.declared.records.Row.{Row};
ghost use Rattle.ledger.specs.Safety.{account_within};
ghost use Rattle.ledger.specs.State.{standing, of_account};

use crate::lines::Ahead;
use ledger::records::{Account, Row};
use register::shelf::Shelf;
use register::table::Register;
use tariff::inventory::Inventory;

/// What is done with one account, given the therms of its lines: it is made anew in its place, and a row is written.
// A closure would be no plainer: its calls are known by a relation alone, while here what an account becomes has a name of its own.
pub(crate) trait Walk {
    // What an account has to be for that.
    ghost ready: { Self → ℕ → Account → Bool };

    ghost renewed: { Self → ℕ → Account → Account };

    ghost written: { Self → ℕ → Account → Row };

    fn one(&self, therms: u32, account: &mut Account) -> Row
        requires { ready self.now therms account.old ≡ true }
        ensures account { account.new ≡ renewed self.now therms account.old }
        ensures row { result ≡ written self.now therms account.old };

    // An account keeps its number.
    ghost numbered: { (w : Self) (therms : ℕ) (a : Account) → (renewed w therms a).number ≡ a.number };
}

/// An account's storage beside its capacity.
// An account is lent memory of whatever content, so it holds plain figures: an `Inventory` in it would ask more of those who lend it.
pub(crate) fn inventory_of(account: &Account) -> Inventory
    requires { account_within account.now ≡ true }
    ensures storage { result.storage ≡ account.now.storage }
    ensures capacity { result.capacity ≡ account.now.capacity }
{
    Inventory::new(account.storage, account.capacity).unwrap()
}

/// Walks over all accounts: each is made anew, and its row is added.
// Accounts and rows are two parameters, and that rows have room for all accounts is a clause: each is lent by itself, and a struct of both
// would be made for two calls.
pub(crate) fn walk_all<W: Walk>(
    walk: &W,
    lines: Ahead,
    accounts: &mut Register<Account>,
    rows: &mut Shelf<Row>,
)
    requires ready { each (λ a. W.Walk.ready walk.now (standing (of_account a.number) lines.lines.now) a) (held accounts.old.shelf) ≡ true }
    requires deliverable { each (λ a. nat_le (standing (of_account a.number) lines.lines.now) 8000000) (held accounts.old.shelf) ≡ true }
    requires space { length (held rows.old) + length (held accounts.old.shelf) ≤ room rows.old }
    ensures accounts { held accounts.new.shelf ≡ map (λ a. W.Walk.renewed walk.now (standing (of_account a.number) lines.entry.lines.now) a) (held accounts.old.shelf) }
    ensures rows { held rows.new ≡ held rows.old ++ map (λ a. W.Walk.written walk.now (standing (of_account a.number) lines.entry.lines.now) a) (held accounts.old.shelf) }
    ensures accounts_sized { room accounts.new.shelf ≡ room accounts.old.shelf }
    ensures rows_sized { room rows.new ≡ room rows.old }
{
    let mut ahead = lines;
    // By place: a record lent out for change could change its key, and that keys rise would be lost.
    for place in 0..accounts.all().len() {
        let mut account = accounts.all()[place];
        let therms = ahead.pass(account.number);
        let row = walk.one(therms, &mut account);
        accounts.renew(place, account);
        rows.append(row);
    }
}
