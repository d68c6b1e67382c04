//! Worked examples over all definitions that must be believed, each computed from them alone: logs of a wire and of a link, turns, a disk, and what is
//! promised of a whole log. Nothing stands on this crate, so an example more proves nothing else again.
#![tactic(auto)]
