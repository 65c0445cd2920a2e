//! A feed in words: a line for each record, with its mark and its fields in decimal, and then the fault's line.
//!
//! It reads what a feed says, and does none of it.

#![tactic(auto)]

ghost use Rattle.std.specs.Prelude.{◌≡◌, ◌++◌, IfOk, Some, string_bytes};
ghost use Rattle.listing.specs.Listing.{line_figures, lines_figures, mark_of, figures_of, figures_text, Listed};

use calls::fields::{Call, Line};
use feed::fault::{Fault, Layer};
use feed::reader::read_record;
use std::alloc::{AllocError, Global};
use std::fmt;

/// A line's figures, each behind a space.
#[derive(Clone, Copy)]
struct LineFigures<'c>(&'c Line);

impl fmt::Display for LineFigures<'_> {
    ghost output = { λ figures. Some (figures_text (line_figures figures.0.now)) };

    fn fmt<W: fmt::Write>(&self, f: &mut fmt::Formatter<W>) -> fmt::Result {
        let line = self.0;
        write!(f, " {} {} {}", line.account, line.pipeline, line.therms)
    }
}

/// The figures of lines, one line after another.
#[derive(Clone, Copy)]
struct LinesFigures<'c>(&'c [Line]);

impl fmt::Display for LinesFigures<'_> {
    ghost output = { λ figures. Some (figures_text (lines_figures figures.0.now)) };

    fn fmt<W: fmt::Write>(&self, f: &mut fmt::Formatter<W>) -> fmt::Result {
        for line in self.0 {
            write!(f, "{}", LineFigures(line))?;
        }
        Ok(())
    }
}

/// A call's mark and fields.
#[derive(Clone, Copy)]
struct CallFigures<'c>(&'c Call);

impl fmt::Display for CallFigures<'_> {
    ghost output = { λ call. Some (mark_of call.0.now ++ figures_text (figures_of call.0.now)) };

    fn fmt<W: fmt::Write>(&self, f: &mut fmt::Formatter<W>) -> fmt::Result {
        match self.0 {
            Call::BeginMonth(c) => write!(f, "MB {} {} {}", c.year, c.month, c.loss),
            Call::OpenAccount(c) => write!(
                f,
                "AC {} {} {} {}",
                c.account, c.supplier, c.capacity, c.storage
            ),
            Call::MoveAccount(c) => write!(f, "MV {} {}", c.account, c.supplier),
            Call::SetGasCost(c) => write!(f, "GC {}", c.gas_cost),
            Call::SetPrice(c) => write!(f, "PR {} {} {}", c.day, c.index, c.market),
            Call::BeginDay(c) => write!(f, "BD {} {}", c.day, c.kind),
            Call::Nominate(c) => write!(f, "NM{} {}", LineFigures(&c.line), c.minute),
            Call::EndDay(_) => write!(f, "ED"),
            Call::Reallocate(c) => {
                let lines = LinesFigures(c.named_lines());
                write!(f, "RL {} {} {}{lines}", c.supplier, c.minute, c.count)
            }
            Call::Read(c) => write!(f, "MR {} {}", c.account, c.therms),
            Call::Settle(_) => write!(f, "SD"),
            Call::Close(_) => write!(f, "CM"),
            Call::Post(c) => write!(f, "PS {} {} {}", c.day, c.max_injection, c.max_withdrawal),
        }
    }
}

/// The listing of a feed.
pub fn listing(heap: Global, feed: &[u8]) -> Result<String, AllocError>
    ensures { IfOk result (λ text. Listed feed.now (string_bytes text)) }
{
    let mut out = String::new(heap);
    // Read record by record and not through `Records`: a call is 2.4 KB, and would be moved once more for each.
    let mut offset = 0;
    let mut count = 0;
    while offset < feed.len() {
        match read_record(&feed[offset..]) {
            Ok((call, length)) => {
                writeln!(out, "{}", CallFigures(&call))?;
                offset += length;
                count += 1;
            }
            Err(cause) => {
                let fault = Fault {
                    ordinal: count + 1,
                    offset,
                    layer: Layer::Feed(cause),
                };
                writeln!(out, "{fault}")?;
                return Ok(out);
            }
        }
    }
    Ok(out)
}
