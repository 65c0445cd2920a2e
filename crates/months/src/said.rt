// Calls, short to write; used memory; and a call made, taken or refused.

use book::book::Book;
use book::request::DeliveryRequest;
use calls::fields::{
    AccountMove, AccountOpening, Call, DayBegin, DayEnd, DaySettle, GasCost, Line, MeterReading,
    MonthBegin, MonthClosing, Nomination, PriceQuote, Reallocation,
};
use calls::limits::BLANK;
use calls::refusal::Refusal;
use ledger::records::{Account, Row, RowKind, Stage};
use std::process::Abort;
use tariff::calendar::Date;
use tariff::critical::Critical;
use tariff::day_rule::DayRule;
use tariff::ordinary::Ordinary;
use tariff::tiers::Tiers;

// Memory that held something before.
const OLD_ACCOUNT: Account = Account {
    number: 7,
    supplier: 7,
    capacity: 7,
    storage: 7,
    reading: Some(7),
};

const OLD_LINE: Line = Line {
    account: 7,
    pipeline: 7,
    therms: 7,
};

const OLD_PRICE: PriceQuote = PriceQuote {
    day: 7,
    index: 7,
    market: 7,
};

const OLD_TIERS: Tiers<u64> = Tiers {
    first: 7,
    second: 7,
    third: 7,
};

const OLD_ROW: Row = Row {
    kind: RowKind::Close,
    date: Date {
        year: 7,
        month: 7,
        day: 7,
    },
    account: 7,
    supplier: 7,
    delivered: 7,
    used: 7,
    injected: 7,
    withdrawn: 7,
    bought: OLD_TIERS,
    sold: OLD_TIERS,
    authorized: 7,
    unauthorized: 7,
    storage_after: 7,
    cents: 7,
};

// Memory with room for A accounts, L lines, P prices and R rows, which held something before.
#[derive(Drop)]
pub(crate) struct Memory<const A: usize, const L: usize, const P: usize, const R: usize> {
    accounts: [Account; A],
    lines: [Line; L],
    prices: [PriceQuote; P],
    rows: [Row; R],
}

impl<const A: usize, const L: usize, const P: usize, const R: usize> Memory<A, L, P, R> {
    pub(crate) fn used() -> Self {
        Memory {
            accounts: [OLD_ACCOUNT; A],
            lines: [OLD_LINE; L],
            prices: [OLD_PRICE; P],
            rows: [OLD_ROW; R],
        }
    }

    // A trial of an Unopened book over this memory.
    pub(crate) fn trial<'a, T: Abort>(&'a mut self, rt: &'a T) -> Trial<'a, T> {
        let book = Book::new(
            &mut self.accounts,
            &mut self.lines,
            &mut self.prices,
            &mut self.rows,
        );
        Trial { rt, book }
    }
}

pub(crate) fn month(year: u16, month: u8, loss: u16) -> Call {
    Call::BeginMonth(MonthBegin { year, month, loss })
}

pub(crate) fn open(account: u32, supplier: u16, capacity: u32, storage: u32) -> Call {
    Call::OpenAccount(AccountOpening {
        account,
        supplier,
        capacity,
        storage,
    })
}

pub(crate) fn transfer(account: u32, supplier: u16) -> Call {
    Call::MoveAccount(AccountMove { account, supplier })
}

pub(crate) fn gas_cost(gas_cost: u32) -> Call {
    Call::SetGasCost(GasCost { gas_cost })
}

pub(crate) fn price(day: u8, index: u32, market: u32) -> Call {
    Call::SetPrice(PriceQuote { day, index, market })
}

// The kind is a byte here as it is in the call.
pub(crate) fn begin(day: u8, kind: u8) -> Call {
    Call::BeginDay(DayBegin { day, kind })
}

pub(crate) fn line(account: u32, pipeline: u8, therms: u32) -> Line {
    Line {
        account,
        pipeline,
        therms,
    }
}

pub(crate) fn nominate(account: u32, pipeline: u8, therms: u32, minute: u16) -> Call {
    Call::Nominate(Nomination {
        line: line(account, pipeline, therms),
        minute,
    })
}

pub(crate) fn end() -> Call {
    Call::EndDay(DayEnd {})
}

pub(crate) fn read(account: u32, therms: u32) -> Call {
    Call::Read(MeterReading { account, therms })
}

pub(crate) fn settle() -> Call {
    Call::Settle(DaySettle {})
}

pub(crate) fn close() -> Call {
    Call::Close(MonthClosing {})
}

// A reallocation of these lines.
pub(crate) fn shift(supplier: u16, minute: u16, named: &[Line]) -> Call {
    let count = named.len().min(200);
    let mut lines = [BLANK; 200];
    lines[..count].copy_from_slice(&named[..count]);
    Call::Reallocate(Reallocation {
        supplier,
        minute,
        count: count as u8,
        lines,
    })
}

// A call, and what it should return.
#[derive(Clone, Copy)]
pub(crate) struct Step {
    call: Call,
    returns: Result<usize, Refusal>,
}

pub(crate) fn taken(call: Call, rows: usize) -> Step {
    Step {
        call,
        returns: Ok(rows),
    }
}

pub(crate) fn refused(call: Call, refusal: Refusal) -> Step {
    Step {
        call,
        returns: Err(refusal),
    }
}

// What a book shows, in few figures; a sum stops at the most that it can hold, since nothing bounds the memory that is lent.
#[derive(Clone, Copy, PartialEq, Eq, Debug)]
struct Summary {
    stage: Stage,
    date: Option<Date>,
    accounts: usize,
    suppliers: u64,
    storage: u64,
    readings: usize,
    lines: usize,
    therms: u64,
    rows: usize,
}

fn summary_of(book: &Book) -> Summary {
    let accounts = book.accounts();
    let lines = book.lines();
    Summary {
        stage: book.stage(),
        date: book.date(),
        accounts: accounts.len(),
        suppliers: accounts
            .iter()
            .map(|account| u64::from(account.supplier))
            .fold(0, u64::saturating_add),
        storage: accounts
            .iter()
            .map(|account| u64::from(account.storage))
            .fold(0, u64::saturating_add),
        readings: accounts
            .iter()
            .filter(|account| account.reading.is_some())
            .count(),
        lines: lines.len(),
        therms: lines
            .iter()
            .map(|line| u64::from(line.therms))
            .fold(0, u64::saturating_add),
        rows: book.rows().len(),
    }
}

// A book under trial.
#[derive(Drop)]
pub(crate) struct Trial<'a, T> {
    rt: &'a T,
    pub(crate) book: Book<'a>,
}

impl<'a, T: Abort> Trial<'a, T> {
    // Makes the calls, one after another, under two rules, which the book takes apart too. After a refusal it shows what it showed.
    pub(crate) fn walk_under<O: DayRule, C: DayRule>(
        &mut self,
        ordinary: &O,
        critical: &C,
        steps: &[Step],
    ) {
        for step in steps {
            let before = summary_of(&self.book);
            assert_eq!(self.rt;
                self.book.apply(&step.call, ordinary, critical),
                step.returns
            );
            assert!(self.rt; step.returns.is_ok() || summary_of(&self.book) == before);
        }
    }

    // The same, under the tariff's rules.
    pub(crate) fn walk(&mut self, steps: &[Step]) {
        self.walk_under(&Ordinary {}, &Critical {}, steps);
    }

    // Asks for the quantity to be delivered, which should be so answered.
    pub(crate) fn ask(&self, request: &DeliveryRequest, answer: Result<u32, Refusal>) {
        assert_eq!(self.rt; self.book.quantity(request), answer);
    }
}
