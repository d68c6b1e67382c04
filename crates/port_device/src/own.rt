//! A port's own bytes: its two state words, and the version of its symbols.

ghost use Rattle.std.specs.Prelude.{◌≡◌, ◌+◌, ◌≤◌, ℕ, IfOk, OnOk, OnErr, take, drop};
ghost use Rattle.spec_plant.specs.World.{PlantPort};
ghost use Rattle.spec_machine.specs.World.{World, own_bytes};
ghost use Rattle.spec_machine.specs.MoreActs.{states_reach};
ghost use Rattle.spec_machine.specs.Reads.{read_act};
ghost use Rattle.port_device.specs.Answers.{AnswersAct};
ghost use Rattle.port_device.specs.Holds.{HoldsPort};
ghost use Rattle.port_device.specs.Own.{ReachesOwn};

use crate::port::Port;
use ads_base::{NoMemory, Octets};
use return_codes::Code;
use std::alloc::Global;

impl Port {
    /// ADS state 2, device state 2, symbol version 1.
    pub fn own(&self) -> [u8; 5]
        ensures { result ≡ own_bytes self.now.bytes.ads self.now.bytes.device self.now.bytes.version }
    {
        let ads = self.ads.to_le_bytes();
        let device = self.device.to_le_bytes();
        [ads[0], ads[1], device[0], device[1], self.version]
    }

    /// Appends so many bytes of the state words, from an offset on, as Read of group 0xF100 gives them to the clients of the
    /// wide server. 0x703 where the offset lies behind them, and 0x705 where more is asked than stands there.
    #[inline(never)]
    pub fn read_states(
        &self,
        alloc: Global,
        offset: u32,
        len: u32,
        out: &mut Octets,
    ) -> Result<Result<(), Code>, NoMemory>
        ensures answer { IfOk result (λ answer. (w : World) (p : PlantPort) → HoldsPort w p self.now
            → AnswersAct w (read_act (states_reach p.number offset len)) answer out.old out.new) }
        ensures no_memory { OnErr result (out.new ≡ out.old) }
    {
        match states_range(offset, len) {
            Ok(()) => {
                let own = self.own();
                out.put(alloc, part_of(&own, offset as usize, len as usize))?;
                Ok(Ok(()))
            }
            Err(code) => Ok(Err(code)),
        }
    }
}

/// Whether so many bytes stand in the state words, from an offset on. 0x703 where the offset lies behind them, and 0x705 where
/// they end behind them.
pub fn states_range(offset: u32, len: u32) -> Result<(), Code>
    ensures reach { (port : ℕ) → ReachesOwn port offset len (states_reach port offset len) result }
    ensures within { OnOk result (offset + len ≤ 4) }
{
    if offset > 4 {
        return Err(Code::C703);
    }
    if len > 4 - offset {
        return Err(Code::C705);
    }
    Ok(())
}

/// So many of some bytes, from one of them on.
fn part_of(bytes: &[u8; 5], first: usize, len: usize) -> &[u8]
    requires { first + len ≤ 5 }
    ensures { result.now ≡ take len (drop first bytes.now) }
{
    &bytes[first..first + len]
}
