//! The lines, which stand sorted by account, cut off account by account: what an account's lines come to. It never looks back.
ghost use Rattle.std.specs.Prelude.{◌≡◌, ℕ, ◌<◌, ◌≤◌, true, []};
ghost use Rattle.tariff.specs.Each.{each};
ghost use Rattle.register.specs.Keys.{rising};
ghost use Rattle.calls.specs.Limits.{line_within};
ghost use Rattle.ledger.specs.State.{line_key, standing, of_account};

use calls::fields::Line;

/// The lines that are still ahead, sorted by account.
#[derive(Clone, Copy)]
pub(crate) struct Ahead<'l> {
    pub(crate) lines: &'l [Line],
    ghost rise: { rising line_key lines.now ≡ true },
    ghost within: { each line_within lines.now ≡ true },
}

impl<'l> Ahead<'l> {
    /// All of these lines.
    pub(crate) fn over(lines: &'l [Line]) -> Ahead<'l>
        requires rise { rising line_key lines.now ≡ true }
        requires within { each line_within lines.now ≡ true }
        ensures { result.lines.now ≡ lines.now }
    {
        Ahead { lines }
    }

    /// No line.
    pub(crate) fn none() -> Ahead<'l>
        ensures { result.lines.now ≡ [] }
    {
        Ahead { lines: &[] }
    }

    /// Adds up the account's lines, and passes them and those of lower accounts.
    pub(crate) fn pass(&mut self, number: u32) -> u32
        requires deliverable { standing (of_account number) self.old.lines.now ≤ 8000000 }
        ensures therms { result ≡ standing (of_account number) self.old.lines.now }
        ensures later { (m : ℕ) → number < m → standing (of_account m) self.new.lines.now ≡ standing (of_account m) self.old.lines.now }
    {
        let mut therms = 0;
        let mut passed = 0;
        // One after another, not by halves: over all accounts each line is passed once, whatever the lines ahead.
        for line in self.lines {
            if line.account > number {
                break;
            }
            if line.account == number {
                therms += line.therms;
            }
            passed += 1;
        }
        self.lines = &self.lines[passed..];
        therms
    }
}
