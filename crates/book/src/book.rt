//! The book over lent memory.
ghost use Rattle.ledger.specs.Ready.{Led};
ghost use Rattle.tables.specs.States.{state_of};

use tables::tables::Tables;

pub(crate) mod apply;
pub(crate) mod quantity;
pub(crate) mod readers;

/// A balancing book over lent memory. Some history of calls has led to what it holds: there is no other way to make one.
#[derive(Drop)]
pub struct Book<'a> {
    tables: Tables<'a>,
    ghost led: { Led (state_of tables) },
}
