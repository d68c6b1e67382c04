//! AMS/TCP: a stream of bytes is cut into frames, and an AMS packet is put into one.
#![tactic(auto)]

mod cut;
mod encoding;
mod front;
mod peeked;
mod splitter;

pub use cut::Cut;
pub use encoding::put_frame;
pub use peeked::Peeked;
pub use splitter::Splitter;
