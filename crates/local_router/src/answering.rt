//! What a connection is answered before its first frame.

ghost use Rattle.std.specs.Prelude.{◌≡◌, ◌≤◌, ◌++◌, length, drop, IfOk, OnOk};
ghost use Rattle.local_router.specs.Asks.{given_port, reply_bytes};
ghost use Rattle.local_router.specs.Heard.{heard, local_of};

use crate::{Ask, Front, Local, Rest, front_in};
use ads_base::{NetId, NoMemory, Octets, put16};
use std::alloc::Global;

// The port that is given where any is wanted.
const ANY_PORT: u16 = 32768;

/// What the machine with this NetId answers to bytes that came behind those that waited, and what is left of both.
#[tactic(auto, using(crate::proofs::HeardLemmas::begins))]
pub fn answer_to(alloc: Global, net: NetId, waited: Octets, bytes: &[u8]) -> Result<Local, NoMemory>
    ensures { IfOk result (λ local. local ≡ local_of net.bytes (heard waited bytes.now)) }
{
    let mut reply = Octets::new(alloc);
    let mut text = waited;
    for (i, byte) in bytes.iter().enumerate() {
        text.push(alloc, *byte)?;
        match front_in(text.as_slice()) {
            Front::Asks(ask) => {
                put_reply(alloc, &mut reply, net, ask)?;
                text.cut(0);
            }
            Front::Begun => {}
            Front::Foreign => {
                text.put(alloc, behind(bytes, i + 1))?;
                return Ok(Local {
                    reply,
                    rest: Rest::Passes(text),
                });
            }
        }
    }
    Ok(Local {
        reply,
        rest: Rest::Waits(text),
    })
}

// The bytes from a place on.
fn behind(bytes: &[u8], at: usize) -> &[u8]
    requires { at ≤ length bytes.now }
    ensures { result.now ≡ drop at bytes.now }
{
    &bytes[at..]
}

// The answer to one packet.
fn put_reply(alloc: Global, reply: &mut Octets, net: NetId, ask: Ask) -> Result<(), NoMemory>
    ensures { OnOk result (reply.new ≡ reply.old ++ reply_bytes net.bytes ask) }
{
    match ask {
        Ask::Connect(port) => put_connected(alloc, reply, net, port),
        Ask::LocalNetId => put_net_id(alloc, reply, net),
    }
}

fn put_connected(alloc: Global, reply: &mut Octets, net: NetId, port: u16) -> Result<(), NoMemory>
    ensures { OnOk result (reply.new ≡ reply.old ++ reply_bytes net.bytes (Ask.Connect port)) }
{
    reply.put_array(alloc, &[0, 16, 8, 0, 0, 0])?;
    reply.put_array(alloc, &net.bytes)?;
    put16(alloc, reply, port_given(port))?;
    Ok(())
}

fn put_net_id(alloc: Global, reply: &mut Octets, net: NetId) -> Result<(), NoMemory>
    ensures { OnOk result (reply.new ≡ reply.old ++ reply_bytes net.bytes Ask.LocalNetId) }
{
    reply.put_array(alloc, &[2, 16, 6, 0, 0, 0])?;
    reply.put_array(alloc, &net.bytes)?;
    Ok(())
}

fn port_given(port: u16) -> u16
    ensures { result ≡ given_port port }
{
    if port == 0 { ANY_PORT } else { port }
}
