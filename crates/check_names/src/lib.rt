//! A test, and nothing else: the bytes of one sum that reads two names, and that the 65th request is refused.
#![tactic(auto)]

#[cfg(test)]
mod tests;
