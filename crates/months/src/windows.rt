// Minutes 780, 810 and 930 pass; 781, 809 and 931 do not.
use crate::said::*;
use calls::refusal::Refusal;

#[test]
fn both_ends_of_each_window(rt: HostRuntime) {
    let mut memory = Memory::<2, 4, 1, 2>::used();
    let mut trial = memory.trial(&rt);
    trial.walk(&[
        taken(month(2025, 8, 150), 0),
        taken(open(7001, 12, 100_000, 40_000), 0),
        taken(open(7002, 12, 50_000, 100), 0),
        taken(begin(1, 0), 0),
        refused(nominate(7001, 1, 2_000, 781), Refusal::OutsideWindow),
        taken(nominate(7001, 1, 2_000, 780), 0),
        taken(nominate(7002, 1, 1_000, 0), 0),
        taken(end(), 0),
    ]);
    let first = line(7001, 1, 1_800);
    let second = line(7002, 1, 1_200);
    trial.walk(&[
        refused(shift(12, 809, &[first, second]), Refusal::OutsideWindow),
        refused(shift(12, 931, &[first, second]), Refusal::OutsideWindow),
        taken(shift(12, 810, &[first, second]), 0),
        taken(shift(12, 930, &[first, second]), 0),
    ]);
}
