//! Between whom a client's call is made.

ghost use Rattle.std.specs.Prelude.{◌≡◌};
ghost use Rattle.ams_header.specs.Header.{address_of};
ghost use Rattle.spec_formats.specs.Header.{IsAddress};
ghost use Rattle.run_tasks.specs.Asking.{asked_address, own_address};
ghost use Rattle.run_tasks.specs.Fits.{FitsClient};

use ads_base::{AmsAddr, NetId};
use cli_words::ClientWords;

/// The AMS port of the client itself.
const CLIENT_PORT: u16 = 32905;

/// What a link in the same process is connected to.
pub const LOCAL_ADDRESS: &str = "";

/// The address of the client itself, and the one that it asks.
#[derive(Clone, Copy)]
pub struct CallAddrs {
    pub own: AmsAddr,
    pub asked: AmsAddr,
}

/// Those of a client that asks the server with this NetId.
pub fn call_addrs(net: NetId, client: &ClientWords) -> CallAddrs
    requires { FitsClient client.now }
    ensures own { address_of result.own ≡ own_address client.now }
    ensures asked { address_of result.asked ≡ asked_address net client.now }
    ensures own_fits { IsAddress (own_address client.now) }
    ensures asked_fits { IsAddress (asked_address net client.now) }
{
    CallAddrs {
        own: addr(client.me, CLIENT_PORT),
        asked: addr(net, client.port as u16),
    }
}

fn addr(net: NetId, port: u16) -> AmsAddr
    ensures is { address_of result ≡ record { net = net.bytes; port = port } }
    ensures fits { IsAddress (record { net = net.bytes; port = port }) }
{
    AmsAddr { net, port }
}
