//! Lemmas on the moments of a lawful history: how each entry came, and what it says of the history before it.
#![tactic(auto)]
