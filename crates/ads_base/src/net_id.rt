//! The AMS NetId, six bytes.

ghost use Rattle.std.specs.Prelude.{◌≡◌, ◌≢◌, ◌<◌, ℕ, List, ◌++◌, ◌∷◌, IfSome, IsNone, SomeIff, OnOk, OnErr, bytes_eq};
ghost use Rattle.std.specs.Fmt.{decimal};
ghost use Rattle.ads_base.specs.Decimal.{IsOnlyRest};

use crate::{NoMemory, Octets, get16, get32, read_decimal, split_decimal};
use std::alloc::Global;

/// An AMS NetId: six bytes, written as six decimal numbers joined by full stops, as `5.1.2.3.1.1`.
/// Beckhoff Information System, "AMS NetId".
#[derive(Clone, Copy, Debug, PartialEq, Eq)]
pub struct NetId {
    pub bytes: [u8; 6],
}

impl NetId {
    ghost use Rattle.ads_base.specs.NetId.{IsNetId, net_text};

    /// The NetId that a text writes: six decimal numbers from 0 to 255 without superfluous zeros, joined by full
    /// stops. `None` for any other text.
    pub fn read(text: &[u8]) -> Option<NetId>
        ensures some { IfSome result (λ net. text.now ≡ net_text net.bytes) }
        ensures none { IsNone result → (bytes : List ℕ) → IsNetId bytes → text.now ≢ net_text bytes }
    {
        let (first, rest) = number_of_net(text)?;
        let (second, rest) = number_of_net(rest)?;
        let (third, rest) = number_of_net(rest)?;
        let (fourth, rest) = number_of_net(rest)?;
        let (fifth, rest) = number_of_net(rest)?;
        let sixth = last_number_of_net(rest)?;
        Some(NetId {
            bytes: [first, second, third, fourth, fifth, sixth],
        })
    }

    /// Appends the text.
    pub fn write(&self, alloc: Global, out: &mut Octets) -> Result<(), NoMemory>
        ensures ok { OnOk result (out.new ≡ out.old ++ net_text self.now.bytes) }
        ensures no_memory { OnErr result (out.new ≡ out.old) }
    {
        let [a, b, c, d, e, f] = self.bytes;
        let text = format!(in alloc; "{a}.{b}.{c}.{d}.{e}.{f}")?;
        out.put(alloc, text.as_bytes())?;
        Ok(())
    }

    /// Whether it is the same as another: compared as a number of four bytes and one of two, where arrays are compared byte
    /// by byte.
    #[inline(always)]
    pub fn is(self, other: NetId) -> bool
        ensures { result ≡ bytes_eq self.bytes other.bytes }
    {
        get32(&self.bytes, 0) == get32(&other.bytes, 0)
            && get16(&self.bytes, 4) == get16(&other.bytes, 4)
    }
}

// A number of a NetId that is followed by a full stop, and what stands behind that.
fn number_of_net(text: &[u8]) -> Option<(u8, &[u8])>
    ensures some { IfSome result (λ (n, rest). text.now ≡ decimal n ++ 46 ∷ rest.now) }
    ensures only { IfSome result (λ (_, rest). IsOnlyRest text.now rest.now) }
    ensures none { IsNone result → (n : ℕ) (rest : List ℕ) → n < 256 → text.now ≢ decimal n ++ 46 ∷ rest }
{
    let (n, rest) = split_decimal(text, b'.')?;
    let byte = byte_of(n)?;
    Some((byte, rest))
}

fn last_number_of_net(text: &[u8]) -> Option<u8>
    ensures some { IfSome result (λ n. text.now ≡ decimal n) }
    ensures none { IsNone result → (n : ℕ) → n < 256 → text.now ≢ decimal n }
{
    let n = read_decimal(text)?;
    let byte = byte_of(n)?;
    Some(byte)
}

fn byte_of(n: u64) -> Option<u8>
    ensures { SomeIff result (n < 256) n }
{
    if n < 256 { Some(n as u8) } else { None }
}
