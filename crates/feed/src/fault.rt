//! Where and why a feed stopped: a fault holds its layer, and the layer its own cause.
ghost use Rattle.std.specs.Prelude.{◌≡◌, Some};
ghost use Rattle.feed.specs.Faults.{layer_name, layer_number, layer_named, fault_text};

use calls::refusal::{PostingRefusal, Refusal};
use std::fmt;

/// Why bytes are no record.
#[derive(Clone, Copy, PartialEq, Eq, Debug)]
pub enum FeedRefusal {
    Cut,
    UnknownMark,
    OutsideLimits,
}

/// The layer that refused, with its own cause.
#[derive(Clone, Copy, PartialEq, Eq, Debug)]
pub enum Layer {
    Feed(FeedRefusal),
    Posting(PostingRefusal),
    Book(Refusal),
}

/// A refused record: its ordinal counts from 1, its offset from 0.
#[derive(Clone, Copy, PartialEq, Eq, Debug)]
pub struct Fault {
    pub ordinal: usize,
    pub offset: usize,
    pub layer: Layer,
}

// A number and a named value are what a fault prints, so both are answered as numbers, 0 where nothing is named.
impl Layer {
    pub fn name(&self) -> &'static str
        ensures { result.now ≡ layer_name self.now }
    {
        match *self {
            Layer::Feed(_) => "feed",
            Layer::Posting(_) => "posting",
            Layer::Book(_) => "book",
        }
    }

    pub fn number(&self) -> u8
        ensures { result ≡ layer_number self.now }
    {
        match *self {
            Layer::Feed(FeedRefusal::Cut) => 1,
            Layer::Feed(FeedRefusal::UnknownMark) => 2,
            Layer::Feed(FeedRefusal::OutsideLimits) => 3,
            Layer::Posting(cause) => cause.number(),
            Layer::Book(cause) => cause.number(),
        }
    }

    /// The account, day or pipeline that it names; 0 where it names none.
    pub fn named(&self) -> u32
        ensures { result ≡ layer_named self.now }
    {
        match *self {
            Layer::Book(cause) => cause.named(),
            _ => 0,
        }
    }
}

/// `F`, layer, number, named value, ordinal and offset.
impl fmt::Display for Fault {
    ghost output = { λ fault. Some (fault_text fault) };

    fn fmt<W: fmt::Write>(&self, f: &mut fmt::Formatter<W>) -> fmt::Result {
        let name = self.layer.name();
        let number = self.layer.number();
        let named = self.layer.named();
        let ordinal = self.ordinal;
        let offset = self.offset;
        write!(f, "F {name} {number} {named} {ordinal} {offset}")
    }
}
