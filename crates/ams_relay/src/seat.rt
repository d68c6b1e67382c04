//! A connection that is there, and where it stands.

/// The number of a connection, and its place among those that are there, where it is found without a look-up.
#[derive(Clone, Copy)]
pub(crate) struct Seat {
    pub(crate) number: u32,
    pub(crate) place: usize,
}
