//! The elements of a page, each with its attributes.
ghost use Rattle.std.specs.Prelude.{◌≡◌, IfOk, string_bytes};
ghost use Rattle.em_view.specs.Tags.{attributes, class_word, position, size, tag_word};

use std::alloc::{AllocError, Global};

/// What a rectangle or a text is; the style of the page says how each looks.
#[derive(Clone, Copy)]
pub(crate) enum Class {
    Lane,
    Head,
    Place,
    Entry,
    Refused,
    Receive,
    Step,
    Fault,
    Done,
    Notify,
    Out,
}

/// An element. All lengths are in pixels, and a hue is 0 to 7.
#[derive(Clone, Copy)]
pub(crate) enum Tag {
    Page {
        width: u64,
        height: u64,
    },
    Style,
    Title,
    Area {
        class: Class,
        hue: u8,
        x: u64,
        y: u64,
        width: u64,
        height: u64,
    },
    Label {
        class: Class,
        x: u64,
        y: u64,
    },
}

fn class_word(class: Class) -> &'static str
    ensures { result.now ≡ class_word class }
{
    match class {
        Class::Lane => "lane",
        Class::Head => "head",
        Class::Place => "place",
        Class::Entry => "entry",
        Class::Refused => "refused",
        Class::Receive => "receive",
        Class::Step => "step",
        Class::Fault => "fault",
        Class::Done => "done",
        Class::Notify => "notify",
        Class::Out => "out",
    }
}

/// The name of the element.
pub(crate) fn tag_word(tag: Tag) -> &'static str
    ensures { result.now ≡ tag_word tag }
{
    match tag {
        Tag::Page { .. } => "svg",
        Tag::Style => "style",
        Tag::Title => "title",
        Tag::Area { .. } => "rect",
        Tag::Label { .. } => "text",
    }
}

fn position(alloc: Global, x: u64, y: u64) -> Result<String, AllocError>
    ensures { IfOk result (λ text. string_bytes text ≡ position x y) }
{
    format!(in alloc; " x='{x}' y='{y}'")
}

fn size(alloc: Global, width: u64, height: u64) -> Result<String, AllocError>
    ensures { IfOk result (λ text. string_bytes text ≡ size width height) }
{
    format!(in alloc; " width='{width}' height='{height}'")
}

/// The attributes, each behind a space. Err is want of memory.
pub(crate) fn attributes(alloc: Global, tag: Tag) -> Result<String, AllocError>
    ensures { IfOk result (λ text. string_bytes text ≡ attributes tag) }
{
    match tag {
        Tag::Page { width, height } => {
            let size = size(alloc, width, height)?;
            format!(in alloc; " xmlns='http://www.w3.org/2000/svg'{size}")
        }
        Tag::Style => Ok(String::new(alloc)),
        Tag::Title => Ok(String::new(alloc)),
        Tag::Area {
            class,
            hue,
            x,
            y,
            width,
            height,
        } => {
            let word = class_word(class);
            let position = position(alloc, x, y)?;
            let size = size(alloc, width, height)?;
            format!(in alloc; " class='{word} h{hue}'{position}{size}")
        }
        Tag::Label { class, x, y } => {
            let word = class_word(class);
            let position = position(alloc, x, y)?;
            format!(in alloc; " class='{word}'{position}")
        }
    }
}
