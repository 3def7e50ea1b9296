//! How far the reading of a script has come.

use crate::line::Place;

/// What may come next: the first line, declarations, bodies, the lines of a body, or nothing more.
#[derive(Clone, Copy, Debug, PartialEq, Eq)]
pub enum Phase {
    First,
    Declarations,
    Bodies,
    Body(Place),
    Done,
}
