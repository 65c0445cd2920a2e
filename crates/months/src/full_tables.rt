// Six hundred accounts and no more; and tables that are full refuse only what adds to them.
use crate::said::*;
use book::request::DeliveryRequest;
use calls::refusal::Refusal;

#[test]
fn six_hundred_accounts(rt: HostRuntime) {
    let mut memory = Memory::<601, 1, 1, 600>::used();
    let mut trial = memory.trial(&rt);
    trial.walk(&[taken(month(2025, 2, 0), 0)]);
    for number in 1..601u32 {
        trial.walk(&[taken(open(number, 5, 100, 50), 0)]);
    }
    trial.walk(&[
        refused(open(601, 5, 100, 50), Refusal::NoSpace),
        taken(gas_cost(1), 0),
        taken(price(1, 1, 1), 0),
        taken(begin(1, 0), 0),
        taken(nominate(600, 1, 0, 0), 0),
        taken(end(), 0),
    ]);
    for number in 1..601u32 {
        trial.walk(&[taken(read(number, 0), 0)]);
    }
    trial.walk(&[taken(settle(), 600)]);
    assert_eq!(rt; trial.book.rows().len(), 600);
}

#[test]
fn full_tables_take_what_adds_nothing(rt: HostRuntime) {
    let mut memory = Memory::<1, 1, 1, 1>::used();
    let mut trial = memory.trial(&rt);
    trial.walk(&[
        taken(month(2025, 8, 150), 0),
        taken(open(1, 5, 10_000, 50), 0),
        refused(open(2, 5, 100, 50), Refusal::NoSpace),
        taken(transfer(1, 6), 0),
        taken(price(1, 1, 1), 0),
        // no room comes before a day past the month's end, and a price given before no room
        refused(price(31, 1, 1), Refusal::NoSpace),
        refused(price(1, 1, 1), Refusal::PriceGiven { day: 1 }),
        taken(begin(1, 0), 0),
        taken(nominate(1, 1, 10, 0), 0),
        taken(nominate(1, 1, 20, 0), 0),
        // no room comes before a late minute, unless the line stands
        refused(nominate(1, 2, 10, 781), Refusal::NoSpace),
        refused(nominate(1, 1, 10, 781), Refusal::OutsideWindow),
        taken(end(), 0),
        taken(gas_cost(1), 0),
        taken(read(1, 0), 0),
        taken(settle(), 1),
    ]);
    // the settled day's line is gone, and its place is used again
    assert_eq!(rt; trial.book.lines().len(), 0);
}

// Capacity 10,000 with 9,000 stored, loss 20 percent: 8 percent of capacity can go to storage, or 1,000 where all may. 100 used and
// 800 stored want 900, of 1,125 before loss; with 1,000 stored 1,100 want 1,375.
#[test]
fn quantities(rt: HostRuntime) {
    let mut memory = Memory::<1, 0, 0, 0>::used();
    let mut trial = memory.trial(&rt);
    trial.walk(&[
        taken(month(2025, 8, 2_000), 0),
        taken(open(1, 5, 10_000, 9_000), 0),
    ]);
    let eight = DeliveryRequest {
        account: 1,
        used: 100,
        max_injection: 800,
        max_withdrawal: 0,
    };
    trial.ask(&eight, Ok(1_125));
    let all = DeliveryRequest {
        max_injection: 10_000,
        ..eight
    };
    trial.ask(&all, Ok(1_375));
    let most = DeliveryRequest {
        used: 8_000_000,
        ..eight
    };
    trial.ask(&most, Ok(8_000_000));
    let none = DeliveryRequest {
        max_injection: 0,
        ..eight
    };
    trial.ask(&none, Ok(125));
}
