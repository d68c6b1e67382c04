//! What the first bytes of a connection are.

ghost use Rattle.std.specs.Prelude.{◌≡◌};
ghost use Rattle.local_router.specs.Fronts.{agrees, connect_front, front_of, local_net_id_front};

use crate::Ask;
use ads_base::get16;

// Command and length of the packets.
const CONNECT: [u8; 6] = [0, 16, 2, 0, 0, 0];

const LOCAL_NET_ID: [u8; 6] = [2, 16, 0, 0, 0, 0];

/// What a text is to the router.
#[derive(Clone, Copy, Debug, PartialEq, Eq)]
pub enum Front {
    /// A whole packet.
    Asks(Ask),
    /// The beginning of one, or nothing.
    Begun,
    /// The beginning of no packet.
    Foreign,
}

/// What a text is.
#[tactic(auto, unfolding(crate::specs::Fronts::front_of))]
pub fn front_in(text: &[u8]) -> Front
    ensures { result ≡ front_of text.now }
{
    if agrees(text, &CONNECT) {
        connect_front(text)
    } else if agrees(text, &LOCAL_NET_ID) {
        local_net_id_front(text)
    } else {
        Front::Foreign
    }
}

// What a text is that agrees with the head of a connect.
fn connect_front(text: &[u8]) -> Front
    ensures { result ≡ connect_front text.now }
{
    if text.len() < 8 {
        Front::Begun
    } else if text.len() == 8 {
        Front::Asks(Ask::Connect(get16(text, 6)))
    } else {
        Front::Foreign
    }
}

// What a text is that agrees with a packet that asks the NetId.
fn local_net_id_front(text: &[u8]) -> Front
    ensures { result ≡ local_net_id_front text.now }
{
    if text.len() < 6 {
        Front::Begun
    } else if text.len() == 6 {
        Front::Asks(Ask::LocalNetId)
    } else {
        Front::Foreign
    }
}

// Whether both are the same as far as both go.
#[tactic(auto, unfolding(crate::specs::Fronts::agrees))]
fn agrees(text: &[u8], head: &[u8]) -> bool
    ensures { result ≡ agrees text.now head.now }
{
    let both = text.len().min(head.len());
    text[..both] == head[..both]
}
