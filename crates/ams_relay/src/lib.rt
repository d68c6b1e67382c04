//! The relay: a router between connections, which passes AMS frames on unchanged and responses to those who asked alone.
#![tactic(auto)]

mod asked;
mod counts;
mod ends;
mod giving;
mod owners;
mod peer;
mod relaying;
mod remembering;
mod router;
mod routing;
mod seat;
mod serving;
mod taking;

pub use counts::RelaySummary;
pub use relaying::relay;
pub use router::Relay;
