//! Reading a feed: its first record, and how many records it holds.
ghost use Rattle.std.specs.Prelude.{◌≡◌, ℕ, ◌+◌, ◌≤◌, length, IfOk};
ghost use Rattle.feed.specs.Cuts.{Counted};
ghost use Rattle.feed.specs.Records.{form, read_form, first_record};

use crate::fault::{Fault, FeedRefusal};
use crate::kinds::{Ac, Bd, Cm, Ed, Gc, Kind, Mb, Mr, Mv, Nm, Pr, Ps, Rl, Sd};
use crate::records::Records;
use calls::fields::Call;

/// What follows a mark of the kind `K`; the length counts the mark.
fn read_kind<K: Kind>(rest: &[u8]) -> Result<(Call, usize), FeedRefusal>
    ensures value { result ≡ read_form (form K.Kind.MARK K.Kind.HEAD K.Kind.tails K.Kind.within K.Kind.decode K.Kind.calls) rest.now }
    ensures bound { IfOk result (λ p. (2 ≤ p.1) × (p.1 ≤ length rest.now + 2)) }
{
    let head = rest.get(..K::HEAD).ok_or(FeedRefusal::Cut)?;
    let size = K::HEAD + K::tail_len(head);
    let body = rest.get(..size).ok_or(FeedRefusal::Cut)?;
    let fields = K::read(body).ok_or(FeedRefusal::OutsideLimits)?;
    Ok((K::call(fields), size + 2))
}

/// The feed's first record, and the bytes that it takes, at least two.
#[inline(always)]
pub fn read_record(feed: &[u8]) -> Result<(Call, usize), FeedRefusal>
    ensures value { result ≡ first_record feed.now }
    ensures bound { IfOk result (λ p. (2 ≤ p.1) × (p.1 ≤ length feed.now)) }
{
    match feed {
        [b'M', b'B', rest @ ..] => read_kind::<Mb>(rest),
        [b'A', b'C', rest @ ..] => read_kind::<Ac>(rest),
        [b'M', b'V', rest @ ..] => read_kind::<Mv>(rest),
        [b'G', b'C', rest @ ..] => read_kind::<Gc>(rest),
        [b'P', b'R', rest @ ..] => read_kind::<Pr>(rest),
        [b'B', b'D', rest @ ..] => read_kind::<Bd>(rest),
        [b'N', b'M', rest @ ..] => read_kind::<Nm>(rest),
        [b'E', b'D', rest @ ..] => read_kind::<Ed>(rest),
        [b'R', b'L', rest @ ..] => read_kind::<Rl>(rest),
        [b'M', b'R', rest @ ..] => read_kind::<Mr>(rest),
        [b'S', b'D', rest @ ..] => read_kind::<Sd>(rest),
        [b'C', b'M', rest @ ..] => read_kind::<Cm>(rest),
        [b'P', b'S', rest @ ..] => read_kind::<Ps>(rest),
        [_, _, ..] => Err(FeedRefusal::UnknownMark),
        _ => Err(FeedRefusal::Cut),
    }
}

/// How many records a whole feed has, or its first fault.
pub fn count_records(feed: &[u8]) -> Result<usize, Fault>
    ensures { Counted feed.now result }
{
    let mut count = 0;
    for record in Records::new(feed) {
        record?;
        count += 1;
    }
    Ok(count)
}
