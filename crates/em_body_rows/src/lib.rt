//! Contexts of whole scripts: each move of their bodies and error bodies, with answers made by hand.
#![tactic(auto)]

#[cfg(test)]
mod tests;
