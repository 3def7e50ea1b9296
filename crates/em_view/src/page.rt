//! The page of a trace.
ghost use Rattle.std.specs.Prelude.{IfOk};
ghost use Rattle.em_view.specs.Markup.{IsPage};

use crate::draw::{Opened, follow, lane, put_bar, put_lane, put_place, put_row, row};
use crate::lines::first_line;
use crate::markup::Markup;
use crate::tag::Tag;
use em_log::{CoreId, EndKind, Entry};
use em_trace::Trace;
use std::alloc::{AllocError, Global};

/// How many cores a history may name.
const CORES: usize = 256;

const STYLE: &str = "text{font:12px monospace;fill:#222} .head{font-weight:bold} .place{fill:#888} \
.refused{fill:#b00020;font-weight:bold} .lane{fill:#f4f4f4} .step{fill:#d8d8d8} .fault{fill:#ff8a80} \
.done{fill:#a5d6a7} .notify{fill:#ce93d8} .out{fill:#ffe082} .receive{stroke:#fff} .receive.h0{fill:#bbdefb} \
.receive.h1{fill:#c8e6c9} .receive.h2{fill:#ffe0b2} .receive.h3{fill:#d1c4e9} .receive.h4{fill:#b2dfdb} \
.receive.h5{fill:#f0f4c3} .receive.h6{fill:#ffccbc} .receive.h7{fill:#cfd8dc}";

/// One more than the greatest core of the entries.
fn lane_count(entries: &[Entry]) -> u16 {
    let mut count = 0;
    for entry in entries {
        count = count.max(u16::from(entry.core.0) + 1);
    }
    count
}

/// The bars of what was never ended, up to the last place.
fn put_open(
    alloc: Global,
    bars: &mut Markup,
    opened: &[Option<Opened>],
    last: u64,
) -> Result<(), AllocError> {
    for core in 0..=255 {
        if let Some(Some(opened)) = opened.get(usize::from(core)) {
            put_bar(alloc, bars, CoreId(core), *opened, last)?;
        }
    }
    Ok(())
}

/// The bars of all contexts, and before them the lanes.
fn bars(alloc: Global, entries: &[Entry], height: u64) -> Result<Markup, AllocError> {
    let mut bars = Markup::new(alloc);
    for core in 0..lane_count(entries) {
        put_lane(alloc, &mut bars, core, height)?;
    }
    let mut opened = vec![in alloc; None; CORES]?;
    let mut place = 0;
    for entry in entries {
        if let Some(slot) = opened.get_mut(usize::from(entry.core.0)) {
            *slot = follow(alloc, &mut bars, *slot, place, entry)?;
        }
        place = place.saturating_add(1);
    }
    put_open(alloc, &mut bars, opened.as_slice(), place.saturating_sub(1))?;
    Ok(bars)
}

/// The rows of all entries, of which these are the lines, and one for the end.
fn put_rows(
    alloc: Global,
    page: &mut Markup,
    trace: &Trace,
    lines: &[u8],
) -> Result<(), AllocError> {
    let mut rest = lines;
    let mut place = 0;
    for entry in trace.entries.as_slice() {
        let (line, after) = first_line(rest);
        put_row(alloc, page, place, entry, line)?;
        rest = after;
        place = place.saturating_add(1);
    }
    let end = match trace.end {
        EndKind::Quiet => "quiet",
        EndKind::Limit => "limit",
    };
    put_place(alloc, page, place, end)
}

/// The page of this trace, whose bytes are given beside it. Err is want of memory.
pub(crate) fn page(alloc: Global, trace: &Trace, bytes: &[u8]) -> Result<Vec<u8>, AllocError>
    ensures { IfOk result (λ page. IsPage page.items) }
{
    let entries = trace.entries.as_slice();
    let height = row((entries.len() as u64).saturating_add(2));
    let width = lane(lane_count(entries));
    let (_, lines) = first_line(bytes);
    let mut content = Markup::new(alloc);
    content.text_element(alloc, Tag::Style, STYLE.as_bytes())?;
    content.append(&bars(alloc, entries, height)?)?;
    put_rows(alloc, &mut content, trace, lines)?;
    content.page(alloc, width, height)
}
