//! A test, and nothing else: that each boxed signal is dropped once, however a run ends.
#![tactic(auto)]

#[cfg(test)]
mod counted;
#[cfg(test)]
mod tests;
