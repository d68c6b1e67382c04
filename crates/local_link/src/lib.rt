//! The server in the client's own process, as a link.
#![tactic(auto)]

mod local;
mod stepping;
mod waiting;

pub use local::LocalLink;
pub use stepping::{OnThreads, Steps};
