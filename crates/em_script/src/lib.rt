//! The script language: a script read into the graph that it declares, and a graph written as its script.
#![tactic(auto)]

mod declarations;
mod draft;
mod expressions;
mod judging;
mod laws;
mod line;
mod named;
mod names;
mod numbers;
mod phase;
mod printing;
mod reading;
mod slots;
mod spelling;
mod stack;
mod statements;
mod symbol;
mod text;
mod tokens;
mod weights;
mod words;

pub use laws::{reading_undoes_printing, scripts_are_read, spellings_are_scripts};
pub use printing::print;
pub use reading::{ScriptEnd, parse};
