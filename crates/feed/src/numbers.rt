//! Numbers of a feed: unsigned, the most significant byte first.
ghost use Rattle.std.specs.Prelude.{◌≡◌, ◌+◌, ◌≤◌, length};
ghost use Rattle.feed.specs.Numbers.{num2, num4};

// Two sizes are two integer types: one generic would be no plainer, as it needs a trait of its own for two calls.
// A place stands beside the bytes: `&bytes[at..at + 2]` would be no plainer, as each field would name both its ends.
pub(crate) fn be16(bytes: &[u8], at: usize) -> u16
    requires { at + 2 ≤ length bytes.now }
    ensures { result ≡ num2 bytes.now at }
{
    u16::from_be_bytes([bytes[at], bytes[at + 1]])
}

pub(crate) fn be32(bytes: &[u8], at: usize) -> u32
    requires { at + 4 ≤ length bytes.now }
    ensures { result ≡ num4 bytes.now at }
{
    u32::from_be_bytes([bytes[at], bytes[at + 1], bytes[at + 2], bytes[at + 3]])
}
