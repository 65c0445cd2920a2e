//! The lines of a reallocation, nine bytes each.
ghost use Rattle.std.specs.Prelude.{◌≡◌, ◌*◌, ◌≤◌, length};
ghost use Rattle.feed.specs.Fields.{line_at, lines_of, padded};

use crate::numbers::be32;
use calls::fields::Line;
use calls::limits::BLANK;

/// The line that the first nine bytes say.
pub(crate) fn read_line(bytes: &[u8]) -> Line
    requires { 9 ≤ length bytes.now }
    ensures { result ≡ line_at bytes.now 0 }
{
    Line {
        account: be32(bytes, 0),
        pipeline: bytes[4],
        therms: be32(bytes, 5),
    }
}

/// The first `count` lines, and blank ones up to two hundred.
pub(crate) fn read_lines(bytes: &[u8], count: u8) -> [Line; 200]
    requires { (9 * count ≤ length bytes.now) × (count ≤ 200) }
    ensures { result ≡ padded count (lines_of count bytes.now) }
{
    let (nines, _) = bytes.as_chunks::<9>();
    let mut lines = [BLANK; 200];
    for (i, nine) in nines[..usize::from(count)].iter().enumerate() {
        lines[i] = read_line(nine);
    }
    lines
}
