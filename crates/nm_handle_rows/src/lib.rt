//! The worked rows of a rank that its caller drives: what its calls answer, and by which name each is refused.
#![tactic(auto)]

#[cfg(test)]
mod handles;
