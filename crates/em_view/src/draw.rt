//! The parts of a picture: a row for each entry, and a bar for each context.

use crate::labels::{mark, remark, text_class};
use crate::lines::{beginning, without_place};
use crate::markup::Markup;
use crate::tag::{Class, Tag};
use em_log::{Body, CoreId, Entry, QueueId, What};
use std::alloc::{AllocError, Global};

const ROW: u64 = 16;

const TOP: u64 = 32;

const LEFT: u64 = 56;

const LANE: u64 = 264;

const LANE_INNER: u64 = 256;

const MARK: u64 = 6;
/// The most bytes of an entry that its row shows; its title has all of them.
const SHOWN: usize = 33;
/// How many colours there are.
const HUES: u16 = 8;

/// A context whose end has not come: the place of its beginning, and what it is.
#[derive(Clone, Copy)]
pub(crate) struct Opened {
    place: u64,
    about: About,
}

#[derive(Clone, Copy)]
enum About {
    Body(Body),
    Receive(QueueId),
}

/// Where the row of a place begins, from above.
pub(crate) fn row(place: u64) -> u64 {
    place.saturating_mul(ROW).saturating_add(TOP)
}

/// Where the lane of a core begins, from the left; behind the last one, the width of the page.
pub(crate) fn lane(core: u16) -> u64 {
    u64::from(core) * LANE + LEFT
}

/// The background and the name of a core's lane, for a page of this height.
pub(crate) fn put_lane(
    alloc: Global,
    page: &mut Markup,
    core: u16,
    height: u64,
) -> Result<(), AllocError> {
    let area = Tag::Area {
        class: Class::Lane,
        hue: 0,
        x: lane(core),
        y: 0,
        width: LANE_INNER,
        height,
    };
    page.element(alloc, area, &Markup::new(alloc))?;
    let head = Tag::Label {
        class: Class::Head,
        x: lane(core).saturating_add(2 * MARK),
        y: TOP - ROW,
    };
    let name = format!(in alloc; "core {core}")?;
    page.text_element(alloc, head, name.as_bytes())
}

/// The title of an entry: its line, and what else is said of it.
fn title(alloc: Global, what: &What, line: &[u8]) -> Result<Markup, AllocError> {
    let mut text = line.to_vec(alloc)?;
    if let Some(remark) = remark(what) {
        text.extend_from_slice(b": ")?;
        text.extend_from_slice(remark.as_bytes())?;
    }
    let mut title = Markup::new(alloc);
    title.text_element(alloc, Tag::Title, text.as_slice())?;
    Ok(title)
}

/// The row of an entry: its place, its mark, and its line without place and core.
pub(crate) fn put_row(
    alloc: Global,
    page: &mut Markup,
    place: u64,
    entry: &Entry,
    line: &[u8],
) -> Result<(), AllocError> {
    let y = row(place);
    let x = lane(u16::from(entry.core.0));
    let mut inner = title(alloc, &entry.what, line)?;
    if let Some(class) = mark(&entry.what) {
        let area = Tag::Area {
            class,
            hue: 0,
            x,
            y,
            width: LANE_INNER,
            height: ROW,
        };
        page.element(alloc, area, &inner)?;
    }
    let number = format!(in alloc; "{place}")?;
    put_place(alloc, page, place, number.as_str())?;
    inner.text(alloc, beginning(without_place(line), SHOWN))?;
    let label = Tag::Label {
        class: text_class(&entry.what),
        x: x.saturating_add(2 * MARK),
        y: y.saturating_add(ROW - 4),
    };
    page.element(alloc, label, &inner)
}

/// The text left of a row.
pub(crate) fn put_place(
    alloc: Global,
    page: &mut Markup,
    place: u64,
    text: &str,
) -> Result<(), AllocError> {
    let label = Tag::Label {
        class: Class::Place,
        x: MARK,
        y: row(place).saturating_add(ROW - 4),
    };
    page.text_element(alloc, label, text.as_bytes())
}

fn body_name(body: Body) -> &'static str {
    match body {
        Body::Boot => "boot",
        Body::GlobalStart(_) => "global start",
        Body::LocalStart(_) => "local start",
        Body::LocalStop(_) => "local stop",
        Body::GlobalStop(_) => "global stop",
    }
}

/// The bar of a context, up to and with its last place.
pub(crate) fn put_bar(
    alloc: Global,
    page: &mut Markup,
    core: CoreId,
    opened: Opened,
    last: u64,
) -> Result<(), AllocError> {
    let number = core.0;
    let first = opened.place;
    let (class, hue, name) = match opened.about {
        About::Body(body) => {
            let name = body_name(body);
            (
                Class::Step,
                0,
                format!(in alloc; "core {number}: {name}, places {first} to {last}")?,
            )
        }
        About::Receive(QueueId(queue)) => (
            Class::Receive,
            (queue % HUES) as u8,
            format!(in alloc; "core {number}: receive of queue {queue}, places {first} to {last}")?,
        ),
    };
    let mut inner = Markup::new(alloc);
    inner.text_element(alloc, Tag::Title, name.as_bytes())?;
    let area = Tag::Area {
        class,
        hue,
        x: lane(u16::from(number)),
        y: row(first),
        width: LANE_INNER,
        height: row(last.saturating_add(1)).saturating_sub(row(first)),
    };
    page.element(alloc, area, &inner)
}

/// What is open on the core behind this entry. The bar of a context that ends here is put.
pub(crate) fn follow(
    alloc: Global,
    bars: &mut Markup,
    opened: Option<Opened>,
    place: u64,
    entry: &Entry,
) -> Result<Option<Opened>, AllocError> {
    match &entry.what {
        What::Enter(body) => Ok(Some(Opened {
            place,
            about: About::Body(*body),
        })),
        What::Start { queue, .. } => Ok(Some(Opened {
            place,
            about: About::Receive(*queue),
        })),
        What::End { .. } => {
            if let Some(opened) = opened {
                put_bar(alloc, bars, entry.core, opened, place)?;
            }
            Ok(None)
        }
        _ => Ok(opened),
    }
}
