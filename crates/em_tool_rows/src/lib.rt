//! Whole calls of the commands: words, a script, the status, and the whole text.
#![tactic(auto)]

#[cfg(test)]
mod tests;
