//! A session in its turn at a tick.

use session::{FrameList, Session};

/// A session that a tick checks, unless it is to be left out, and the frames that it gives.
#[derive(Drop)]
pub struct Turned {
    pub session: Session,
    /// Its connection is closing, so it is left as it is.
    pub skip: bool,
    pub out: FrameList,
}
