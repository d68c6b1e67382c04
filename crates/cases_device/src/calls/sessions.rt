//! Calls of session: what a new session answers to one AMS packet.

ghost use Rattle.std.specs.Prelude.{IfOk, IfSome};
ghost use Rattle.spec_frames.specs.Frame.{IsAmsPacket};
ghost use Rattle.type_layout.specs.Descriptions.{description_of};
ghost use Rattle.port_device.specs.Holds.{WasAccepted};

use ads_base::Octets;
use case_plants::description_of;
use case_sheets::{Answer, Args, Fault};
use net_routes::Admission;
use port_device::Ports;
use session::{Session, Taken};
use std::alloc::Global;
use type_layout::Description;

/// The least and the greatest length of an AMS packet.
const LEAST: usize = 32;

const MOST: usize = 2_097_152;

pub fn make(
    alloc: Global,
    call: &str,
    args: &mut Args<'_>,
    answer: &mut Answer,
) -> Result<(), Fault> {
    match call {
        "take" => take(alloc, args, answer),
        _ => Err(Fault::NoCall),
    }
}

// The description of the next word.
fn accepted(alloc: Global, args: &mut Args<'_>) -> Result<Description, Fault>
    ensures { IfOk result (λ d. WasAccepted (description_of d)) }
{
    description_of(alloc, args)
}

// The AMS packet of the next word.
fn packet_of(args: &mut Args<'_>) -> Result<Octets, Fault>
    ensures { IfOk result (λ packet. IsAmsPacket packet) }
{
    let packet = args.octets();
    if packet.len() < LEAST || packet.len() > MOST {
        return Err(Fault::BadArgument);
    }
    Ok(packet)
}

// DESCRIPTION PACKET: the frame of the answer, or that there is none.
#[tactic(auto, using(port_device::proofs::BuiltLemmas::accepted_may_be_built))]
fn take(alloc: Global, args: &mut Args<'_>, answer: &mut Answer) -> Result<(), Fault> {
    let d = accepted(alloc, args)?;
    let packet = packet_of(args)?;
    let mut ports = Ports::build(alloc, &d)?;
    let admission = Admission::build(alloc, &d.routes, None)?;
    let mut session = Session::new(alloc)?;
    match session.take(alloc, &mut ports, &admission, d.net, packet.as_slice())? {
        Taken::Answer(frame) => answer.hex(frame.as_slice()),
        Taken::Silent => answer.say("silent"),
        Taken::Close => answer.say("close"),
    }
    Ok(())
}
