// February 2025 from the first call to the close: a shift, a Critical Day, a move, refusals in between. Worked by hand:
// day 1, ordinary: account 1 has 150 and uses 100, so 30 go to storage and 20 are sold (3, 3, 14) at 2000: 60 + 51 + 168 cents;
//   account 2 has 150 and uses 200, so storage gives 50;
// day 2, Critical: account 1 uses 300 with a right of 170, so storage gives 170 and 130 are Unauthorized at 3500 + 60000: 82,550 cents;
//   account 2 has 500 and uses 100, so 400 go to storage; then it moves to supplier 6;
// day 3, ordinary: account 2 uses 200, so storage gives 85 and 115 are bought (8, 9, 98) at 3000: 240 + 311 + 4,116 cents;
// close: account 1 has 860 of at least 1000, so 140 are bought at 3000: 4,200 cents; account 2 has 2265, within 1000 and 2500.
use crate::cash_only::CashOnly;
use crate::said::*;
use calls::refusal::Refusal;
use ledger::records::Row;
use std::process::Abort;

fn first_day(trial: &mut Trial<impl Abort>) {
    trial.walk(&[
        taken(month(2025, 2, 0), 0),
        taken(open(2, 5, 10_000, 2_000), 0),
        taken(open(1, 5, 10_000, 1_000), 0),
        refused(settle(), Refusal::WrongStage),
        taken(begin(1, 0), 0),
        taken(nominate(1, 1, 200, 600), 0),
        taken(nominate(2, 1, 100, 780), 0),
        taken(end(), 0),
        refused(nominate(1, 1, 300, 600), Refusal::WrongStage),
        taken(shift(5, 900, &[line(1, 1, 150), line(2, 1, 150)]), 0),
        refused(settle(), Refusal::PriceMissing),
        taken(gas_cost(3_000), 0),
        refused(settle(), Refusal::PriceMissing),
        taken(price(1, 2_000, 3_500), 0),
        refused(settle(), Refusal::ReadingMissing { account: 1 }),
        taken(read(1, 100), 0),
        refused(settle(), Refusal::ReadingMissing { account: 2 }),
        taken(read(2, 200), 0),
        taken(settle(), 2),
    ]);
}

fn second_day(trial: &mut Trial<impl Abort>) {
    trial.walk(&[
        taken(price(2, 2_000, 3_500), 0),
        taken(begin(2, 1), 0),
        taken(nominate(2, 8, 500, 0), 0),
        taken(end(), 0),
        taken(read(1, 300), 0),
        taken(read(2, 100), 0),
        taken(settle(), 2),
        taken(transfer(2, 6), 0),
    ]);
}

fn quiet_day(trial: &mut Trial<impl Abort>, day: u8, used: u32) {
    trial.walk(&[
        taken(price(day, 2_000, 3_500), 0),
        refused(close(), Refusal::NotDue),
        taken(begin(day, 0), 0),
        taken(end(), 0),
        taken(read(1, 0), 0),
        taken(read(2, used), 0),
        taken(settle(), 2),
    ]);
}

// Account, supplier, storage after and cents of the row at a place.
fn row_at(rows: &[Row], place: usize) -> Option<(u32, u16, u64, i64)> {
    rows.get(place).map(|row| (row.account, row.supplier, row.storage_after, row.cents))
}

#[test]
fn february(rt: HostRuntime) {
    let mut memory = Memory::<2, 2, 28, 58>::used();
    let mut trial = memory.trial(&rt);
    first_day(&mut trial);
    second_day(&mut trial);
    quiet_day(&mut trial, 3, 200);
    for day in 4..29u8 {
        quiet_day(&mut trial, day, 0);
    }
    trial.walk(&[taken(close(), 2)]);
    let journal = trial.book.rows();
    assert_eq!(rt; journal.len(), 58);
    assert_eq!(rt; row_at(journal, 0), Some((1, 5, 1_030, -279)));
    assert_eq!(rt; row_at(journal, 1), Some((2, 5, 1_950, 0)));
    assert_eq!(rt; row_at(journal, 2), Some((1, 5, 860, 82_550)));
    assert_eq!(rt; row_at(journal, 3), Some((2, 5, 2_350, 0)));
    assert_eq!(rt; row_at(journal, 5), Some((2, 6, 2_265, 4_667)));
    assert_eq!(rt; row_at(journal, 56), Some((1, 5, 1_000, 4_200)));
    assert_eq!(rt; row_at(journal, 57), Some((2, 6, 2_265, 0)));
    assert_eq!(rt; trial.book.statement(5), 86_471);
    assert_eq!(rt; trial.book.statement(6), 4_667);
    assert_eq!(rt; trial.book.statement(7), 0);
}

// A month under a rule that leaves storage alone. On day 1 150 against 100 sells 50 at 60 percent of 2000, 600 cents, and 150 against 200
// buys 50 at 140 percent of 3000, 2,100 cents. Storage never moves, and 1000 and 2000 are within the band at the close.
#[test]
fn another_rule(rt: HostRuntime) {
    let mut memory = Memory::<2, 2, 28, 58>::used();
    let mut trial = memory.trial(&rt);
    trial.walk(&[
        taken(month(2025, 2, 0), 0),
        taken(open(1, 5, 10_000, 1_000), 0),
        taken(open(2, 5, 10_000, 2_000), 0),
        taken(gas_cost(3_000), 0),
    ]);
    cash_day(&mut trial, 1, 1, 150, 100, 200);
    for day in 2..29u8 {
        cash_day(&mut trial, day, 0, 0, 0, 0);
    }
    trial.walk(&[taken(close(), 2)]);
    assert_eq!(rt; row_at(trial.book.rows(), 0), Some((1, 5, 1_000, -600)));
    assert_eq!(rt; row_at(trial.book.rows(), 1), Some((2, 5, 2_000, 2_100)));
    assert_eq!(rt; row_at(trial.book.rows(), 57), Some((2, 5, 2_000, 0)));
    assert_eq!(rt; trial.book.rows().len(), 58);
    assert_eq!(rt; trial.book.statement(5), 1_500);
}

// The kind is a byte here as it is in the call.
fn cash_day(
    trial: &mut Trial<impl Abort>,
    day: u8,
    kind: u8,
    nominated: u32,
    used_by_1: u32,
    used_by_2: u32,
) {
    trial.walk_under(
        &CashOnly {},
        &CashOnly {},
        &[
            taken(price(day, 2_000, 3_500), 0),
            taken(begin(day, kind), 0),
            taken(nominate(1, 1, nominated, 0), 0),
            taken(nominate(2, 1, nominated, 0), 0),
            taken(end(), 0),
            taken(read(1, used_by_1), 0),
            taken(read(2, used_by_2), 0),
            taken(settle(), 2),
        ],
    );
}
