// Every kind of record at both ends of each limit and just past them, cut at every byte, and with marks that are none.
use calls::fields::{AccountOpening, Call};
use feed::fault::Layer;
use feed::reader::{count_records, read_record};
use listing::listing;
use std::alloc::{AllocError, Global};
use std::test::Fail;

// The refusal's number, none where the first record is read.
fn refusal(feed: &[u8]) -> Option<u8> {
    let cause = read_record(feed).err()?;
    Some(Layer::Feed(cause).number())
}

#[test]
fn month_begin_limits(rt: HostRuntime) {
    assert_eq!(rt; refusal(b"MB\x07\xe8\x01\x00\x00"), None);
    assert_eq!(rt; refusal(b"MB\x083\x0c\x07\xd0"), None);
    assert_eq!(rt; refusal(b"MB\x07\xe7\x08\x00\x96"), Some(3));
    assert_eq!(rt; refusal(b"MB\x084\x08\x00\x96"), Some(3));
    assert_eq!(rt; refusal(b"MB\x07\xe9\x00\x00\x96"), Some(3));
    assert_eq!(rt; refusal(b"MB\x07\xe9\x0d\x00\x96"), Some(3));
    assert_eq!(rt; refusal(b"MB\x07\xe9\x08\x07\xd1"), Some(3));
}

#[test]
fn account_limits(rt: HostRuntime) {
    assert_eq!(rt;
        refusal(b"AC\x00\x00\x00\x01\x00\x01\x00\x00\x00\x00\x00\x00\x00\x00"),
        None
    );
    assert_eq!(rt;
        refusal(b"AC\x3b\x9a\xc9\xff\xff\xff\x05\xf5\xe1\x00\x05\xf5\xe1\x00"),
        None
    );
    assert_eq!(rt;
        refusal(b"AC\x00\x00\x00\x00\x00\x0c\x00\x01\x86\xa0\x00\x00\x9c\x40"),
        Some(3)
    );
    assert_eq!(rt;
        refusal(b"AC\x3b\x9a\xca\x00\x00\x0c\x00\x01\x86\xa0\x00\x00\x9c\x40"),
        Some(3)
    );
    assert_eq!(rt;
        refusal(b"AC\x00\x00\x1bY\x00\x00\x00\x01\x86\xa0\x00\x00\x9c\x40"),
        Some(3)
    );
    assert_eq!(rt;
        refusal(b"AC\x00\x00\x1bY\x00\x0c\x05\xf5\xe1\x01\x00\x00\x9c\x40"),
        Some(3)
    );
    assert_eq!(rt;
        refusal(b"AC\x00\x00\x1bY\x00\x0c\x00\x00\x03\xe8\x00\x00\x03\xe9"),
        Some(3)
    );
}

#[test]
fn move_limits(rt: HostRuntime) {
    assert_eq!(rt; refusal(b"MV\x00\x00\x00\x01\x00\x01"), None);
    assert_eq!(rt; refusal(b"MV\x3b\x9a\xc9\xff\xff\xff"), None);
    assert_eq!(rt; refusal(b"MV\x00\x00\x00\x00\x00\x0c"), Some(3));
    assert_eq!(rt; refusal(b"MV\x3b\x9a\xca\x00\x00\x0c"), Some(3));
    assert_eq!(rt; refusal(b"MV\x00\x00\x1bY\x00\x00"), Some(3));
}

#[test]
fn price_limits(rt: HostRuntime) {
    assert_eq!(rt; refusal(b"GC\x00\x00\x00\x00"), None);
    assert_eq!(rt; refusal(b"GC\x00\x0fB\x40"), None);
    assert_eq!(rt; refusal(b"GC\x00\x0fBA"), Some(3));
    assert_eq!(rt; refusal(b"PR\x01\x00\x00\x00\x00\x00\x00\x00\x00"), None);
    assert_eq!(rt; refusal(b"PR\x1f\x00\x0fB\x40\x00\x0fB\x40"), None);
    assert_eq!(rt; refusal(b"PR\x00\x00\x00\x0a\xf0\x00\x00\x0a\xf0"), Some(3));
    assert_eq!(rt; refusal(b"PR\x20\x00\x00\x0a\xf0\x00\x00\x0a\xf0"), Some(3));
    assert_eq!(rt; refusal(b"PR\x01\x00\x0fBA\x00\x00\x0a\xf0"), Some(3));
    assert_eq!(rt; refusal(b"PR\x01\x00\x00\x0a\xf0\x00\x0fBA"), Some(3));
}

#[test]
fn day_begin_limits(rt: HostRuntime) {
    assert_eq!(rt; refusal(b"BD\x01\x00"), None);
    assert_eq!(rt; refusal(b"BD\x1f\x01"), None);
    assert_eq!(rt; refusal(b"BD\x00\x00"), Some(3));
    assert_eq!(rt; refusal(b"BD\x20\x00"), Some(3));
    assert_eq!(rt; refusal(b"BD\x01\x02"), Some(3));
}

#[test]
fn nomination_limits(rt: HostRuntime) {
    assert_eq!(rt;
        refusal(b"NM\x00\x00\x00\x01\x01\x00\x00\x00\x00\x00\x00"),
        None
    );
    assert_eq!(rt;
        refusal(b"NM\x3b\x9a\xc9\xff\x08\x00\x0fB\x40\x05\x9f"),
        None
    );
    assert_eq!(rt;
        refusal(b"NM\x00\x00\x00\x00\x01\x00\x00\x07\xd0\x02X"),
        Some(3)
    );
    assert_eq!(rt;
        refusal(b"NM\x3b\x9a\xca\x00\x01\x00\x00\x07\xd0\x02X"),
        Some(3)
    );
    assert_eq!(rt;
        refusal(b"NM\x00\x00\x1bY\x00\x00\x00\x07\xd0\x02X"),
        Some(3)
    );
    assert_eq!(rt;
        refusal(b"NM\x00\x00\x1bY\x09\x00\x00\x07\xd0\x02X"),
        Some(3)
    );
    assert_eq!(rt; refusal(b"NM\x00\x00\x1bY\x01\x00\x0fBA\x02X"), Some(3));
    assert_eq!(rt;
        refusal(b"NM\x00\x00\x1bY\x01\x00\x00\x07\xd0\x05\xa0"),
        Some(3)
    );
}

#[test]
fn reading_and_posting_limits(rt: HostRuntime) {
    assert_eq!(rt; refusal(b"MR\x00\x00\x00\x01\x00\x00\x00\x00"), None);
    assert_eq!(rt; refusal(b"MR\x3b\x9a\xc9\xff\x00z\x12\x00"), None);
    assert_eq!(rt; refusal(b"MR\x00\x00\x00\x00\x00\x00\x01\xf4"), Some(3));
    assert_eq!(rt; refusal(b"MR\x3b\x9a\xca\x00\x00\x00\x01\xf4"), Some(3));
    assert_eq!(rt; refusal(b"MR\x00\x00\x1bY\x00z\x12\x01"), Some(3));
    assert_eq!(rt; refusal(b"PS\x01\x00\x00\x00\x00"), None);
    assert_eq!(rt; refusal(b"PS\x1f\x27\x10\x27\x10"), None);
    assert_eq!(rt; refusal(b"PS\x00\x00F\x00\x1e"), Some(3));
    assert_eq!(rt; refusal(b"PS\x20\x00F\x00\x1e"), Some(3));
    assert_eq!(rt; refusal(b"PS\x01\x27\x11\x00\x1e"), Some(3));
    assert_eq!(rt; refusal(b"PS\x01\x00F\x27\x11"), Some(3));
}

#[test]
fn reallocation_limits(rt: HostRuntime) {
    assert_eq!(rt;
        refusal(b"RL\x00\x01\x00\x00\x01\x00\x00\x1bY\x01\x00\x00\x07\x08"),
        None
    );
    assert_eq!(rt;
        refusal(b"RL\xff\xff\x05\x9f\x01\x00\x00\x1bY\x01\x00\x00\x07\x08"),
        None
    );
    assert_eq!(rt;
        refusal(b"RL\x00\x00\x03\x2a\x01\x00\x00\x1bY\x01\x00\x00\x07\x08"),
        Some(3)
    );
    assert_eq!(rt;
        refusal(b"RL\x00\x0c\x05\xa0\x01\x00\x00\x1bY\x01\x00\x00\x07\x08"),
        Some(3)
    );
    assert_eq!(rt; refusal(b"RL\x00\x0c\x03\x2a\x00"), Some(3));
    assert_eq!(rt;
        refusal(
            b"RL\x00\x0c\x03\x2a\x02\x00\x00\x1bY\x01\x00\x00\x07\x08\x00\x00\x00\x00\x01\x00\x00\x00\x05",
        ),
        Some(3)
    );
}

#[test]
fn reallocation_line_limits(rt: HostRuntime) {
    assert_eq!(rt;
        refusal(
            b"RL\x00\x0c\x03\x2a\x02\x00\x00\x1bY\x01\x00\x00\x07\x08\x3b\x9a\xca\x00\x01\x00\x00\x00\x05",
        ),
        Some(3)
    );
    assert_eq!(rt;
        refusal(
            b"RL\x00\x0c\x03\x2a\x02\x00\x00\x1bY\x00\x00\x00\x00\x05\x00\x00\x1bY\x01\x00\x00\x07\x08",
        ),
        Some(3)
    );
    assert_eq!(rt;
        refusal(
            b"RL\x00\x0c\x03\x2a\x02\x00\x00\x1bY\x09\x00\x00\x00\x05\x00\x00\x1bY\x01\x00\x00\x07\x08",
        ),
        Some(3)
    );
    assert_eq!(rt;
        refusal(
            b"RL\x00\x0c\x03\x2a\x02\x00\x00\x1bY\x01\x00\x00\x07\x08\x00\x00\x1bZ\x08\x00\x0fB\x40",
        ),
        None
    );
    assert_eq!(rt;
        refusal(
            b"RL\x00\x0c\x03\x2a\x02\x00\x00\x1bY\x01\x00\x00\x07\x08\x00\x00\x1bZ\x08\x00\x0fBA",
        ),
        Some(3)
    );
}

#[test]
fn marks(rt: HostRuntime) {
    assert_eq!(rt; refusal(b""), Some(1));
    assert_eq!(rt; refusal(b"M"), Some(1));
    assert_eq!(rt; refusal(b"m"), Some(1));
    assert_eq!(rt; refusal(b"XX"), Some(2));
    assert_eq!(rt; refusal(b"mb"), Some(2));
    assert_eq!(rt; refusal(b"Mb"), Some(2));
    assert_eq!(rt; refusal(b"MX"), Some(2));
    assert_eq!(rt; refusal(b"ED"), None);
    assert_eq!(rt; refusal(b"SD"), None);
    assert_eq!(rt; refusal(b"CM"), None);
    assert_eq!(rt; refusal(b"EDx"), None);
    assert_eq!(rt; refusal(b"RL\x00\x0c\x03\x2a\xff"), Some(1));
}

// Whether every cut of a record is refused as cut, and the whole is read.
fn cuts_refused(record: &[u8]) -> bool {
    (0..record.len()).all(|n| refusal(&record[..n]) == Some(1)) && refusal(record) == None
}

#[test]
fn cut_at_every_byte(rt: HostRuntime) {
    assert!(rt; cuts_refused(b"MB\x07\xe9\x08\x00\x96"));
    assert!(rt; cuts_refused(b"AC\x00\x00\x1bY\x00\x0c\x00\x01\x86\xa0\x00\x00\x9c\x40"));
    assert!(rt; cuts_refused(b"MV\x00\x00\x1bY\x00\x0c"));
    assert!(rt; cuts_refused(b"GC\x00\x00\x0b\xb8"));
    assert!(rt; cuts_refused(b"PR\x01\x00\x00\x0a\xf0\x00\x00\x0a\xf0"));
    assert!(rt; cuts_refused(b"BD\x01\x00"));
    assert!(rt; cuts_refused(b"NM\x00\x00\x1bY\x01\x00\x00\x07\xd0\x02X"));
    assert!(rt; cuts_refused(b"ED"));
    assert!(rt;
        cuts_refused(
            b"RL\x00\x0c\x03\x2a\x02\x00\x00\x1bY\x01\x00\x00\x07\x08\x00\x00\x1bZ\x01\x00\x00\x04\xb0",
        )
    );
    assert!(rt; cuts_refused(b"MR\x00\x00\x1bY\x00\x00\x01\xf4"));
    assert!(rt; cuts_refused(b"SD"));
    assert!(rt; cuts_refused(b"CM"));
    assert!(rt; cuts_refused(b"PS\x01\x00F\x00\x1e"));
}

// A reallocation of so many lines of 1 therm each on pipeline 8 of account 7.
fn long_reallocation(heap: Global, count: u8) -> Result<Vec<u8>, AllocError> {
    let mut bytes = Vec::new(heap);
    bytes.extend_from_slice(b"RL\x00\x0c\x03\x2a")?;
    bytes.push(count)?;
    for _ in 0..count {
        bytes.extend_from_slice(b"\x00\x00\x00\x07\x08\x00\x00\x00\x01")?;
    }
    Ok(bytes)
}

#[test]
fn reallocation_counts(rt: HostRuntime) -> Result<(), Fail> {
    let most = long_reallocation(rt.alloc(), 200)?;
    assert_eq!(rt; refusal(most.as_slice()), None);
    let over = long_reallocation(rt.alloc(), 201)?;
    assert_eq!(rt; refusal(over.as_slice()), Some(3));
    assert_eq!(rt;
        refusal(&over.as_slice()[0..over.len().saturating_sub(1)]),
        Some(1)
    );
    assert_eq!(rt; refusal(&over.as_slice()[0..over.len().min(7)]), Some(1));
    let far_over = long_reallocation(rt.alloc(), 255)?;
    assert_eq!(rt; refusal(far_over.as_slice()), Some(3));
    Ok(())
}

// The order of the bytes, and of the fields.
#[test]
fn fields_in_order(rt: HostRuntime) {
    let opening = AccountOpening {
        account: 16_909_060,
        supplier: 1_286,
        capacity: 17_303_818,
        storage: 789_774,
    };
    assert_eq!(rt;
        read_record(b"AC\x01\x02\x03\x04\x05\x06\x01\x08\x09\x0a\x00\x0c\x0d\x0e\x0f",),
        Ok((Call::OpenAccount(opening), 16))
    );
}

// How many records a feed has, or the offset of its fault.
fn count(feed: &[u8]) -> Result<usize, usize> {
    count_records(feed).map_err(|fault| fault.offset)
}

#[test]
fn whole_feeds(rt: HostRuntime) -> Result<(), Fail> {
    assert_eq!(rt; count(b""), Ok(0));
    assert_eq!(rt; count(b"EDSDCM"), Ok(3));
    assert_eq!(rt; count(b"EDSDcm"), Err(4));
    let none = listing(rt.alloc(), b"")?;
    assert_eq!(rt; none.as_str(), "");
    let cut = listing(rt.alloc(), b"EDBD\x01\x00M")?;
    assert_eq!(rt; cut.as_str(), "ED\nBD 1 0\nF feed 1 0 3 6\n");
    let unknown = listing(rt.alloc(), b"ED??")?;
    assert_eq!(rt; unknown.as_str(), "ED\nF feed 2 0 2 2\n");
    let outside = listing(rt.alloc(), b"BD\x20\x00SD")?;
    assert_eq!(rt; outside.as_str(), "F feed 3 0 1 0\n");
    Ok(())
}
