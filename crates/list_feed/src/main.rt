//! Lists a feed: reads the first 65,536 bytes of standard input and prints a line for each record.

#![tactic(auto)]

ghost use Rattle.std.specs.Prelude.{◌≡◌, ◌≤◌, take, length, IfOk, IfSome};
ghost use Rattle.std.specs.Option.{option_map};

use listing::listing;
use std::io;
use std::io::Read;

/// Bytes of a feed that are read; what lies past them is as if it were not there.
const MAX_FEED: usize = 65_536;

/// Reads until there are no more places or the source ends, and says how many bytes came.
fn fill<R: Read>(source: &mut R, places: &mut [u8]) -> io::Result<usize>
    ensures few { IfOk result (λ n. n ≤ length places.old) }
    ensures first { IfOk result (λ n. IfSome (option_map (take (length places.old)) (R.remaining source.old)) (λ first. take n places.new ≡ first)) }
{
    let mut count = 0;
    while count < places.len() {
        let got = source.read(&mut places[count..])?;
        if got == 0 {
            break;
        }
        count += got;
    }
    Ok(count)
}

/// The first bytes of a source, up to the most that are read: how many there are.
// Into an array and no `Vec`, whose memory might not be had: an empty feed asks for none.
fn first_bytes<R: Read>(source: &mut R, feed: &mut [u8; MAX_FEED]) -> io::Result<usize>
    ensures few { IfOk result (λ n. n ≤ 65536) }
    ensures first { IfOk result (λ n. IfSome (option_map (take 65536) (R.remaining source.old)) (λ first. take n feed.new ≡ first)) }
{
    fill(source, feed.as_mut_slice())
}

fn main(rt: HostRuntime) -> anyhow::Result<()> {
    let mut buffer = [0u8; MAX_FEED];
    let count = first_bytes(&mut rt.stdin(), &mut buffer)?;
    let text = listing(rt.alloc(), &buffer[..count])?;
    rt.print(text.as_str())?;
    Ok(())
}
