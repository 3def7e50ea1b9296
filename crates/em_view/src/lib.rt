//! The trace of a run as a picture: one page of SVG.
#![tactic(auto)]

mod draw;
mod labels;
mod lines;
mod markup;
mod outcome;
mod page;
mod tag;
mod view;

pub use view::em_view;
