//! The local AMS router as a wire plays it: what a client asks of it before its first frame is answered, all else passes.
#![tactic(auto)]

mod answering;
mod answers;
mod ask;
mod front;
mod laws;
mod local;
mod routed;

pub use answering::answer_to;
pub use ask::Ask;
pub use front::{Front, front_in};
pub use laws::{
    bytes_are_divided, packets_are_read, pieces_are_joined, without_a_router_all_is_seen,
};
pub use local::{Local, Rest};
pub use routed::Routed;
