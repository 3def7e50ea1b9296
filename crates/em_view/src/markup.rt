//! Markup: text that is escaped, and elements that are balanced.
ghost use Rattle.std.specs.Prelude.{◌≡◌, ◌++◌, [], IfOk, OnOk};
ghost use Rattle.em_view.specs.Markup.{IsContent, IsPage, element, escape, escaped};

use crate::tag::{Tag, attributes, tag_word};
use std::alloc::{AllocError, Global};

/// Puts the byte as text shows it. At Err, want of memory, nothing is put.
fn put_escaped(bytes: &mut Vec<u8>, byte: u8) -> Result<(), AllocError>
    ensures { OnOk result (bytes.new.items ≡ bytes.old.items ++ escape byte) }
{
    match byte {
        b'&' => bytes.extend_from_slice(b"&amp;"),
        b'<' => bytes.extend_from_slice(b"&lt;"),
        b'>' => bytes.extend_from_slice(b"&gt;"),
        b' '..=b'~' => bytes.extend_from_slice(&[byte]),
        _ => bytes.extend_from_slice(b"?"),
    }
}

fn escaped(alloc: Global, text: &[u8]) -> Result<Vec<u8>, AllocError>
    ensures { IfOk result (λ bytes. bytes.items ≡ escaped text.now) }
{
    let mut bytes = Vec::new(alloc);
    for byte in text {
        put_escaped(&mut bytes, *byte)?;
    }
    Ok(bytes)
}

/// The element with this markup in it. Err is want of memory.
pub(crate) fn element(alloc: Global, tag: Tag, inner: &[u8]) -> Result<Vec<u8>, AllocError>
    ensures { IfOk result (λ bytes. bytes.items ≡ element tag inner.now) }
{
    let word = tag_word(tag).as_bytes();
    let attributes = attributes(alloc, tag)?;
    let mut bytes = b"<".to_vec(alloc)?;
    bytes.extend_from_slice(word)?;
    bytes.extend_from_slice(attributes.as_bytes())?;
    bytes.extend_from_slice(b">")?;
    bytes.extend_from_slice(inner)?;
    bytes.extend_from_slice(b"</")?;
    bytes.extend_from_slice(word)?;
    bytes.extend_from_slice(b">")?;
    Ok(bytes)
}

/// Text and elements, one behind the other.
#[derive(Drop)]
pub(crate) struct Markup {
    bytes: Vec<u8>,
    ghost formed: { ∥ IsContent bytes.items ∥₁ },
}

impl Markup {
    pub(crate) fn new(alloc: Global) -> Self {
        Markup {
            bytes: Vec::new(alloc),
        }
    }

    pub(crate) fn as_slice(&self) -> &[u8]
        ensures { result.now ≡ self.now.bytes.items }
    {
        self.bytes.as_slice()
    }

    /// Puts text behind it. At Err, want of memory, nothing is put.
    pub(crate) fn text(&mut self, alloc: Global, text: &[u8]) -> Result<(), AllocError> {
        let text = escaped(alloc, text)?;
        self.bytes.extend_from_slice(text.as_slice())
    }

    /// Puts an element with this markup in it behind it. At Err, want of memory, nothing is put.
    pub(crate) fn element(
        &mut self,
        alloc: Global,
        tag: Tag,
        inner: &Markup,
    ) -> Result<(), AllocError> {
        let element = element(alloc, tag, inner.as_slice())?;
        self.bytes.extend_from_slice(element.as_slice())
    }

    /// Puts an element with this text in it behind it. At Err, want of memory, nothing is put.
    pub(crate) fn text_element(
        &mut self,
        alloc: Global,
        tag: Tag,
        text: &[u8],
    ) -> Result<(), AllocError> {
        let mut inner = Markup::new(alloc);
        inner.text(alloc, text)?;
        self.element(alloc, tag, &inner)
    }

    /// Puts all of another markup behind it. At Err, want of memory, nothing is put.
    pub(crate) fn append(&mut self, more: &Markup) -> Result<(), AllocError> {
        self.bytes.extend_from_slice(more.as_slice())
    }

    /// The page of this width and height with this markup in it. Err is want of memory.
    pub(crate) fn page(&self, alloc: Global, width: u64, height: u64) -> Result<Vec<u8>, AllocError>
        ensures { IfOk result (λ page. IsPage page.items) }
    {
        element(alloc, Tag::Page { width, height }, self.as_slice())
    }
}
