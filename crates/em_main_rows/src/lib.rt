//! Whole calls of the commands, with a thread for each core: words, a script, the status, and what is written.
#![tactic(auto)]

#[cfg(test)]
mod tests;
