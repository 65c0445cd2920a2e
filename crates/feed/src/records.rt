//! The records of a feed one after another, each read as far as it goes.
ghost use Rattle.std.specs.Prelude.{◌+◌, ◌^◌, ◌<◌, ◌≤◌, length};

use crate::fault::{Fault, Layer};
use crate::reader::read_record;
use calls::fields::Call;

/// The records of a feed: each record's call, or the fault at which they end.
#[derive(Drop)]
pub struct Records<'f> {
    rest: &'f [u8],
    ordinal: usize,
    offset: usize,
    ghost in_memory: { offset + length rest.now < 2 ^ 63 },
    ghost two_bytes_each: { ordinal ≤ offset + 1 },
}

impl<'f> Records<'f> {
    ghost use Rattle.std.specs.Prelude.{◌≡◌};

    /// All of a feed's records.
    pub fn new(feed: &'f [u8]) -> Records<'f>
        ensures whole { result.rest.now ≡ feed.now }
        ensures first { result.ordinal ≡ 1 }
        ensures front { result.offset ≡ 0 }
    {
        Records {
            rest: feed,
            ordinal: 1,
            offset: 0,
        }
    }
}

impl Iterator for Records<'_> {
    ghost use Rattle.std.specs.Iterator.{at_most};
    ghost use Rattle.feed.specs.Walks.{Gives};

    type Item = Result<Call, Fault>;

    ghost next_gives = { Gives };

    ghost remaining = { λ records. at_most (length records.rest.now) };

    #[inline(always)]
    fn next(&mut self) -> Option<Result<Call, Fault>> {
        if self.rest.is_empty() {
            // The feed is over, or a fault has ended it.
            return None;
        }
        Some(match read_record(self.rest) {
            Ok((call, length)) => {
                self.rest = &self.rest[length..];
                self.offset += length;
                self.ordinal += 1;
                Ok(call)
            }
            Err(cause) => {
                self.rest = &[];
                Err(Fault {
                    ordinal: self.ordinal,
                    offset: self.offset,
                    layer: Layer::Feed(cause),
                })
            }
        })
    }
}
