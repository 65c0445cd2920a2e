// Every call is refused with every number that it can give, and the book shows what it showed.
use crate::said::*;
use book::request::DeliveryRequest;
use calls::fields::{Call, PostedMaxima};
use calls::refusal::Refusal;
use std::process::Abort;

const FULL: DeliveryRequest = DeliveryRequest {
    account: 1,
    used: 100,
    max_injection: 10_000,
    max_withdrawal: 0,
};

// Nothing but a month begin is taken before the first month.
fn unopened(trial: &mut Trial<impl Abort>) {
    trial.walk(&[
        refused(open(1, 5, 100, 50), Refusal::WrongStage),
        refused(transfer(1, 5), Refusal::WrongStage),
        refused(gas_cost(1), Refusal::WrongStage),
        refused(price(1, 1, 1), Refusal::WrongStage),
        refused(begin(1, 0), Refusal::WrongStage),
        refused(nominate(1, 1, 1, 1), Refusal::WrongStage),
        refused(end(), Refusal::WrongStage),
        refused(
            shift(5, 900, &[line(1, 1, 1), line(2, 1, 1)]),
            Refusal::WrongStage,
        ),
        refused(read(1, 1), Refusal::WrongStage),
        refused(settle(), Refusal::WrongStage),
        refused(close(), Refusal::WrongStage),
    ]);
    trial.ask(&FULL, Err(Refusal::WrongStage));
}

// A field outside its limits comes before the stage.
fn limits(trial: &mut Trial<impl Abort>) {
    trial.walk(&[
        refused(month(2023, 12, 0), Refusal::OutsideLimits),
        refused(open(1, 5, 100, 101), Refusal::OutsideLimits),
        refused(transfer(1, 0), Refusal::OutsideLimits),
        refused(gas_cost(1_000_001), Refusal::OutsideLimits),
        refused(price(32, 1, 1), Refusal::OutsideLimits),
        refused(begin(0, 0), Refusal::OutsideLimits),
        refused(nominate(1, 9, 1, 1), Refusal::OutsideLimits),
        refused(
            shift(5, 1_440, &[line(1, 1, 1), line(2, 1, 1)]),
            Refusal::OutsideLimits,
        ),
        refused(read(1, 8_000_001), Refusal::OutsideLimits),
    ]);
    let posting = PostedMaxima {
        day: 1,
        max_injection: 10_001,
        max_withdrawal: 0,
    };
    trial.walk(&[refused(Call::Post(posting), Refusal::OutsideLimits)]);
    let request = DeliveryRequest { account: 0, ..FULL };
    trial.ask(&request, Err(Refusal::OutsideLimits));
}

fn between(trial: &mut Trial<impl Abort>) {
    trial.walk(&[
        refused(month(2025, 8, 0), Refusal::WrongStage),
        refused(transfer(1, 5), Refusal::NoAccount { account: 1 }),
    ]);
    trial.ask(&FULL, Err(Refusal::NoAccount { account: 1 }));
    trial.walk(&[
        taken(open(1, 5, 10_000, 50), 0),
        refused(open(1, 6, 100, 50), Refusal::AlreadyOpen { account: 1 }),
        taken(open(2, 5, 10_000, 50), 0),
        taken(open(3, 6, 10_000, 50), 0),
        refused(open(4, 6, 100, 50), Refusal::NoSpace),
        taken(gas_cost(0), 0),
        refused(gas_cost(1), Refusal::GasCostGiven),
        refused(price(29, 1, 1), Refusal::NotDue),
        taken(price(28, 0, 0), 0),
        refused(price(28, 1, 1), Refusal::PriceGiven { day: 28 }),
        refused(begin(2, 0), Refusal::NotDue),
        refused(close(), Refusal::NotDue),
    ]);
    let posting = PostedMaxima {
        day: 1,
        max_injection: 0,
        max_withdrawal: 0,
    };
    trial.walk(&[refused(Call::Post(posting), Refusal::WrongStage)]);
}

fn nominating(trial: &mut Trial<impl Abort>) {
    trial.walk(&[
        taken(begin(1, 1), 0),
        refused(begin(1, 1), Refusal::WrongStage),
        refused(settle(), Refusal::WrongStage),
        refused(read(1, 1), Refusal::WrongStage),
        refused(nominate(4, 1, 1, 1), Refusal::NoAccount { account: 4 }),
        taken(nominate(1, 1, 100, 780), 0),
        taken(nominate(2, 1, 100, 780), 0),
        taken(nominate(1, 2, 10, 780), 0),
        taken(nominate(3, 1, 7, 780), 0),
        taken(end(), 0),
        refused(end(), Refusal::WrongStage),
    ]);
}

fn shifts(trial: &mut Trial<impl Abort>) {
    let one = line(1, 1, 101);
    let two = line(2, 1, 99);
    let unknown = Refusal::NoAccount { account: 9 };
    trial.walk(&[refused(shift(5, 900, &[line(9, 1, 1), line(8, 1, 1), one]), unknown)]);
    let repeated = Refusal::LineRepeated { account: 2 };
    trial.walk(&[
        refused(shift(5, 900, &[one, two, line(2, 1, 0)]), repeated),
        refused(
            shift(5, 809, &[line(1, 3, 0), line(2, 3, 0), one]),
            Refusal::NoSpace,
        ),
        refused(shift(5, 931, &[one, two]), Refusal::OutsideWindow),
    ]);
    let other = Refusal::OtherSupplier { account: 3 };
    trial.walk(&[refused(shift(5, 900, &[one, two, line(3, 1, 7)]), other)]);
    // one more on pipeline 1 and one fewer on pipeline 2 is refused for pipeline 1
    let total = Refusal::TotalChanged { pipeline: 1 };
    trial.walk(&[
        refused(shift(5, 900, &[one, line(1, 2, 9)]), total),
        taken(shift(5, 900, &[one, two]), 0),
    ]);
}

fn readings(trial: &mut Trial<impl Abort>) {
    trial.walk(&[
        refused(read(9, 1), Refusal::NoAccount { account: 9 }),
        taken(read(1, 0), 0),
        refused(read(1, 5), Refusal::ReadingGiven { account: 1 }),
        refused(settle(), Refusal::PriceMissing),
        taken(price(1, 0, 0), 0),
        refused(price(2, 0, 0), Refusal::NoSpace),
        refused(settle(), Refusal::ReadingMissing { account: 2 }),
        taken(read(3, 0), 0),
        taken(read(2, 0), 0),
        taken(settle(), 3),
    ]);
}

#[test]
fn every_call_with_every_number(rt: HostRuntime) {
    let mut memory = Memory::<3, 4, 2, 5>::used();
    let mut trial = memory.trial(&rt);
    limits(&mut trial);
    unopened(&mut trial);
    trial.walk(&[taken(month(2025, 2, 0), 0)]);
    between(&mut trial);
    nominating(&mut trial);
    shifts(&mut trial);
    readings(&mut trial);
    // three rows more do not fit, at a settling and at a close; a close before all days are settled is 7 then, not 9
    trial.walk(&[
        refused(close(), Refusal::NoSpace),
        taken(begin(2, 0), 0),
        taken(end(), 0),
        refused(settle(), Refusal::NoSpace),
    ]);
}

// A Critical Day from May to October, and months that do not follow.
#[test]
fn seasons_and_months(rt: HostRuntime) {
    let mut memory = Memory::<0, 0, 31, 0>::used();
    let mut trial = memory.trial(&rt);
    trial.walk(&[
        taken(month(2099, 10, 0), 0),
        refused(begin(1, 1), Refusal::OutOfSeason),
        refused(begin(2, 1), Refusal::NotDue),
    ]);
    empty_month(&mut trial, 31);
    trial.walk(&[
        refused(month(2099, 10, 0), Refusal::NotDue),
        refused(month(2099, 12, 0), Refusal::NotDue),
        taken(month(2099, 11, 0), 0),
        taken(begin(1, 1), 0),
        taken(end(), 0),
        refused(settle(), Refusal::PriceMissing),
    ]);
}

// With no accounts a settling and a close write nothing, and still need their prices and their days.
fn empty_month(trial: &mut Trial<impl Abort>, days: u8) {
    trial.walk(&[taken(gas_cost(1), 0)]);
    for day in 1..=days {
        trial.walk(&[
            taken(price(day, 1, 1), 0),
            taken(begin(day, 0), 0),
            taken(end(), 0),
            taken(settle(), 0),
        ]);
    }
    trial.walk(&[
        refused(begin(31, 0), Refusal::NotDue),
        taken(close(), 0),
        refused(close(), Refusal::WrongStage),
        refused(gas_cost(1), Refusal::WrongStage),
    ]);
}

// After December 2099 no month follows.
#[test]
fn the_last_month(rt: HostRuntime) {
    let mut memory = Memory::<0, 0, 31, 0>::used();
    let mut trial = memory.trial(&rt);
    trial.walk(&[taken(month(2099, 12, 0), 0)]);
    empty_month(&mut trial, 31);
    trial.walk(&[
        refused(month(2099, 12, 0), Refusal::NotDue),
        refused(month(2024, 1, 0), Refusal::NotDue),
    ]);
}
