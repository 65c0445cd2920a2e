//! The accounts that a reallocation names: the first that is not known, and the first line of another supplier's account.
//!
//! Nothing here looks at therms or pipelines.
ghost use Rattle.std.specs.Prelude.{◌≡◌, not, map, ◌==◌};
ghost use Rattle.register.specs.Views.{held};
ghost use Rattle.ledger.specs.State.{known, supplier_of};
ghost use Rattle.std.specs.List.{find};

use calls::fields::Line;
use ledger::records::Account;
use register::table::Register;

/// The first account named that is not known.
pub fn first_unknown(accounts: &Register<Account>, named: &[Line]) -> Option<u32>
    ensures { result ≡ find (λ n. not (known n (held accounts.now.shelf))) (map (λ l. l.account) named.now) }
{
    let line = named
        .iter()
        .find(|line| accounts.look(u64::from(line.account)).is_none())?;
    Some(line.account)
}

/// The supplier of an account, or 0 where it is not known.
fn supplier_of(accounts: &Register<Account>, account: u32) -> u16
    ensures { result ≡ supplier_of account (held accounts.now.shelf) }
{
    accounts
        .look(u64::from(account))
        .map_or(0, |found| found.supplier)
}

/// The first line whose account is not the supplier's; an account that is not known has supplier 0.
pub fn first_of_other_supplier(
    accounts: &Register<Account>,
    supplier: u16,
    named: &[Line],
) -> Option<Line>
    ensures { result ≡ find (λ l. not (supplier_of l.account (held accounts.now.shelf) == supplier)) named.now }
{
    let line = named
        .iter()
        .find(|line| supplier_of(accounts, line.account) != supplier)?;
    Some(*line)
}
