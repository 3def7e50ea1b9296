//! What a line of a trace is.
ghost use Rattle.std.specs.Prelude.{◌≡◌};
ghost use Rattle.em_trace.specs.Form.{Reads};
ghost use Rattle.em_trace.specs.Reading.{judge, placed_form};

use crate::entries::entry;
use crate::line::{self, is};
use crate::reading::u64_number;
use em_log::{EndKind, Entry};

/// A line after the first one.
#[derive(Debug, Drop)]
pub enum Line {
    Entry(Entry),
    End(EndKind),
}

/// The place and the entry of a line, to its end.
fn placed(line: &mut line::Line) -> Option<(u64, Entry)>
    ensures { Reads result line.new (placed_form.read line.old) }
{
    let place = u64_number(line)?;
    let entry = entry(line)?;
    Some((place, entry))
}

/// What a line without its newline is, where `place` is the next place, or the least rule that it breaks.
#[tactic(auto, unfolding(crate::specs::Reading::judge))]
pub(crate) fn judge(place: u64, bytes: &[u8]) -> Result<Line, u8>
    ensures { result ≡ judge place bytes.now }
{
    if is(bytes, "quiet") {
        return Ok(Line::End(EndKind::Quiet));
    }
    if is(bytes, "limit") {
        return Ok(Line::End(EndKind::Limit));
    }
    let mut line = line::Line::new(bytes);
    let Some((at, entry)) = placed(&mut line) else {
        return Err(2);
    };
    if !line.is_well() {
        return Err(3);
    }
    if at == place {
        Ok(Line::Entry(entry))
    } else {
        Err(4)
    }
}
