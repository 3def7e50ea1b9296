//! The lines of a trace, and their parts.

/// The bytes before the first separator and those behind it; without one, all of them and none.
fn cut(separator: u8, bytes: &[u8]) -> (&[u8], &[u8]) {
    match bytes.iter().position(|byte| *byte == separator) {
        Some(at) => (&bytes[..at], &bytes[at + 1..]),
        None => (bytes, &[]),
    }
}

/// The first line, without its newline, and what follows it.
pub(crate) fn first_line(bytes: &[u8]) -> (&[u8], &[u8]) {
    cut(b'\n', bytes)
}

/// A line without its place and its core.
pub(crate) fn without_place(line: &[u8]) -> &[u8] {
    let (_, behind_place) = cut(b' ', line);
    let (_, behind_core) = cut(b' ', behind_place);
    behind_core
}

/// At most so many bytes of it.
pub(crate) fn beginning(bytes: &[u8], most: usize) -> &[u8] {
    &bytes[..bytes.len().min(most)]
}
