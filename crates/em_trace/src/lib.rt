//! The trace of a history as text: written exactly, read back exactly.
#![tactic(auto)]

mod entries;
mod fields;
mod history;
mod judging;
mod kind;
mod laws;
mod line;
mod reading;
mod text;
mod writing;

pub use history::{Trace, TraceEnd, read_history};
pub use laws::{
    reading_undoes_writing, refused_by_first_lines, texts_differ, whole_lines_are_first_entries,
};
pub use writing::{write_entry, write_history};
