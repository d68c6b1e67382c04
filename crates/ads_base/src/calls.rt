//! The numbers of the calls that are to fail, for the objects of the outside that tests hand in.

use crate::ListOf;

/// Numbers of calls, counted from 1.
pub type Calls = ListOf<u64>;
