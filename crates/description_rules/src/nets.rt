//! NetIds of a document.
ghost use Rattle.std.specs.Prelude.{◌≡◌, option_map};
ghost use Rattle.spec_rules.specs.Nets.{net_of};
ghost use Rattle.ads_base.specs.NetId.{IsNetId};

use ads_base::NetId;

/// The NetId that a text writes. None exactly where it writes none.
pub fn read_net(text: &[u8]) -> Option<NetId>
    ensures { option_map (λ net. net.bytes) result ≡ net_of text.now }
{
    match NetId::read(text) {
        None => None,
        Some(net) => Some(NetId {
            bytes: six_bytes(net.bytes),
        }),
    }
}

fn six_bytes(bytes: [u8; 6]) -> [u8; 6]
    ensures same { result ≡ bytes }
    ensures net { IsNetId result }
{
    bytes
}
