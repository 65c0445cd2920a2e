use tariff::calendar::Month;
use tariff::closing::close_month;
use tariff::critical::Critical;
use tariff::day_rule::DayRule;
use tariff::inventory::Inventory;
use tariff::loss::Loss;
use tariff::ordinary::Ordinary;
use tariff::posting::{PostingError, PostingLayer};
use tariff::prices::{MonthPrices, Price};
use tariff::question::{Figures, Question};
use tariff::tiers::Tiers;

fn days_of(year: u16, number: u8) -> Option<u8> {
    Month::new(year, number).map(|month| month.days())
}

fn after(year: u16, number: u8) -> Option<(u16, u8)> {
    let next = Month::new(year, number)?.next()?;
    Some(next.year_and_number())
}

#[test]
fn calendar(rt: HostRuntime) {
    assert!(rt; Month::new(2024, 0).is_none());
    assert!(rt; Month::new(2024, 13).is_none());
    assert!(rt; Month::new(2023, 12).is_none());
    assert!(rt; Month::new(2100, 1).is_none());
    assert_eq!(rt; days_of(2024, 2), Some(29));
    assert_eq!(rt; days_of(2025, 2), Some(28));
    assert_eq!(rt; days_of(2096, 2), Some(29));
    assert_eq!(rt; days_of(2099, 4), Some(30));
    assert_eq!(rt; days_of(2099, 12), Some(31));
    assert_eq!(rt; after(2024, 12), Some((2025, 1)));
    assert_eq!(rt; after(2025, 1), Some((2025, 2)));
    assert_eq!(rt; after(2099, 12), None);
}

#[test]
fn limits(rt: HostRuntime) {
    assert!(rt; Loss::new(2_000).is_some());
    assert!(rt; Loss::new(2_001).is_none());
    assert!(rt; Price::new(1_000_000).is_some());
    assert!(rt; Price::new(1_000_001).is_none());
    assert!(rt; Price::average(1_000_000, 0).is_none());
    assert!(rt; Price::average(31_000_000, 31).is_some());
    assert!(rt; Price::average(31_000_001, 31).is_none());
    assert!(rt; Price::average(0, 32).is_none());
    assert!(rt; Inventory::new(100_000_000, 100_000_000).is_some());
    assert!(rt; Inventory::new(0, 100_000_001).is_none());
    assert!(rt; Inventory::new(1_001, 1_000).is_none());
}

const DRY: Figures = Figures {
    day: 31,
    delivered: 500,
    used: 3_000,
    storage: 1_000,
    capacity: 100_000,
    max_injection: 100_000,
    max_withdrawal: 0,
};

#[test]
fn questions(rt: HostRuntime) {
    assert!(rt; Question::new(DRY).is_some());
    assert!(rt; Question::new(Figures { day: 0, ..DRY }).is_none());
    assert!(rt; Question::new(Figures { day: 32, ..DRY }).is_none());
    assert!(rt;
        Question::new(Figures {
            used: 8_000_001,
            ..DRY
        })
        .is_none()
    );
    assert!(rt;
        Question::new(Figures {
            delivered: 8_000_001,
            ..DRY
        })
        .is_none()
    );
    assert!(rt;
        Question::new(Figures {
            storage: 100_001,
            ..DRY
        })
        .is_none()
    );
    assert!(rt;
        Question::new(Figures {
            max_injection: 100_001,
            ..DRY
        })
        .is_none()
    );
    assert!(rt;
        Question::new(Figures {
            max_withdrawal: 100_001,
            ..DRY
        })
        .is_none()
    );
}

fn short_day(day: u8) -> Option<Question> {
    Question::new(Figures {
        day,
        delivered: 1_182,
        used: 1_600,
        storage: 100,
        capacity: 50_000,
        max_injection: 350,
        max_withdrawal: 150,
    })
}

fn bought_on(layer: &PostingLayer<Ordinary>, day: u8) -> Option<Tiers<u32>> {
    short_day(day).map(|question| layer.answer(&question).bought)
}

fn tiers(first: u32, second: u32, third: u32) -> Tiers<u32> {
    Tiers {
        first,
        second,
        third,
    }
}

#[test]
fn postings(rt: HostRuntime) {
    let mut layer = PostingLayer::over(Ordinary {});
    let outside = Err(PostingError::OutsideLimits);
    assert_eq!(rt; bought_on(&layer, 5), Some(tiers(15, 15, 288)));
    assert_eq!(rt; layer.post(5, 0, 100), Ok(()));
    assert_eq!(rt; bought_on(&layer, 5), Some(tiers(50, 50, 218)));
    assert_eq!(rt; bought_on(&layer, 6), Some(tiers(15, 15, 288)));
    assert_eq!(rt; layer.post(5, 10_000, 0), Ok(()));
    assert_eq!(rt; bought_on(&layer, 5), Some(tiers(0, 0, 418)));
    assert_eq!(rt; layer.post(0, 0, 0), outside);
    assert_eq!(rt; layer.post(32, 0, 0), outside);
    assert_eq!(rt; layer.post(31, 10_001, 0), outside);
    assert_eq!(rt; layer.post(31, 0, 10_001), outside);
    assert_eq!(rt; layer.post(31, 10_000, 10_000), Ok(()));
    layer.clear();
    assert_eq!(rt; bought_on(&layer, 5), Some(tiers(15, 15, 288)));
}

#[test]
fn critical_shortage(rt: HostRuntime) {
    let answer = Question::new(DRY).map(|question| Critical {}.answer(&question));
    assert_eq!(rt;
        answer.map(|a| (a.withdrawn, a.authorized, a.unauthorized)),
        Some((1_000, 700, 800))
    );
}

fn june_close(storage: u32) -> Option<(u32, u32, u32, i64)> {
    let month = Month::new(2025, 6)?;
    let inventory = Inventory::new(storage, 1_000)?;
    let prices = MonthPrices {
        gas_cost: Price::new(2_000)?,
        average_index: Price::average(75_015, 30)?,
    };
    let close = close_month(&month, &inventory, &prices);
    Some((
        close.bought.first,
        close.sold.second,
        close.storage_after,
        close.cents,
    ))
}

// The average index is 2,500.5, so 2,501.
#[test]
fn closes(rt: HostRuntime) {
    assert_eq!(rt; june_close(400), Some((0, 50, 300, -1_850)));
    assert_eq!(rt; june_close(300), Some((0, 0, 300, 0)));
    assert_eq!(rt; june_close(200), Some((0, 0, 200, 0)));
    assert_eq!(rt; june_close(199), Some((1, 0, 200, 25)));
}
