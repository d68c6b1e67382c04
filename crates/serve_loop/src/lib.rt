//! The loop of a server: events of a wire are given to what is served, and each connection is offered what waits for it.
#![tactic(auto)]

mod beside;
mod beside_loop;
mod loop_end;
mod looping;
mod nobody;
mod offers;
mod rounds;
mod turn_end;
mod turning;

pub use beside::{Beside, Go};
pub use beside_loop::serve_beside;
pub use loop_end::LoopEnd;
pub use looping::serve;
pub use nobody::Nobody;
pub use turn_end::Turn;
pub use turning::turn;
