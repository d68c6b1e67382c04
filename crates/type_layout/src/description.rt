//! The description of a plant.

use crate::{PortList, Types};
use ads_base::{ListOf, NetId};

/// What a client may do; each right holds the ones before it.
#[derive(Clone, Copy, Debug, PartialEq, Eq)]
pub enum Rights {
    Read,
    Write,
    Control,
}

/// A machine that may connect, and its rights.
#[derive(Clone, Copy, Debug, PartialEq, Eq)]
pub struct RouteDesc {
    pub net: NetId,
    pub rights: Rights,
}

/// The routes of a description.
pub type Routes4 = ListOf<RouteDesc>;

/// The description of a plant: the machine's own NetId, its routes, types and ports.
#[derive(Debug, Drop)]
pub struct Description {
    pub net: NetId,
    pub routes: Routes4,
    pub types: Types,
    pub ports: PortList,
}
