//! The device behind all connections.

ghost use Rattle.std.specs.Prelude.{◌≡◌, ◌<◌, ◌^◌, List, length, IfOk};
ghost use Rattle.signals.specs.Wave.{Wave};
ghost use Rattle.spec_persistent.specs.Otherwise.{MayBegin};
ghost use Rattle.spec_server.specs.Server.{start_in};
ghost use Rattle.type_layout.specs.Descriptions.{description_of};
ghost use Rattle.server_core.specs.Profiles.{profile_of};

use crate::Profile;
use ads_base::{NetId, NoMemory};
use net_routes::Admission;
use port_device::Ports;
use std::alloc::Global;
use type_layout::Description;

/// What is served to all connections, and the last moment.
#[derive(Drop)]
pub(crate) struct Device {
    pub(crate) net: NetId,
    pub(crate) admission: Admission,
    pub(crate) ports: Ports,
    // How many signals there are.
    pub(crate) signals: u32,
    pub(crate) moment: u64,
}

impl Device {
    ghost use Rattle.server_core.specs.HoldsWorld.{HoldsState};

    /// The device of a description that one with this number of signals may begin with, behind a server of this profile,
    /// before any tick.
    pub(crate) fn build(
        alloc: Global,
        profile: Profile,
        d: &Description,
        signals: u32,
    ) -> Result<Device, NoMemory>
        requires { MayBegin (description_of d.now) signals }
        ensures { IfOk result (λ device. (waves : List Wave) → signals ≡ length waves → length waves < 2 ^ 32
            → HoldsState device waves (start_in (profile_of profile) (description_of d.now) waves)) }
    {
        Ok(Device {
            net: d.net,
            admission: Admission::build(alloc, &d.routes, profile.others)?,
            ports: Ports::build_in(alloc, profile.manner, d)?,
            signals,
            moment: 0,
        })
    }
}
