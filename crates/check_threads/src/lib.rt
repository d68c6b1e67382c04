//! Tests, and nothing else: that the halves of a tick's list are checked at once, which no contract says.
#![tactic(auto)]

#[cfg(test)]
mod meeting;
#[cfg(test)]
mod plant;
#[cfg(test)]
mod tests;
