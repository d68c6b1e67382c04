//! What stands at the front of a text: a whole frame, or the text is open or broken.

ghost use Rattle.std.specs.Prelude.{◌≡◌, ◌≤◌, length, take};
ghost use Rattle.ams_tcp.specs.FrontCase.{IsFront};

use crate::Peeked;
use ads_base::get32;

/// Bytes of the AMS/TCP header: reserved 2, length 4.
pub(crate) const HEADER: usize = 6;

/// Bytes of the least AMS packet, which is an AMS header alone.
const LEAST_AMS: usize = 32;

/// Bytes of the greatest AMS packet.
const GREATEST_AMS: usize = 2_097_152;

#[inline(always)]
pub(crate) fn front_at(text: &[u8]) -> Peeked<'_>
    ensures { IsFront text.now result }
{
    if text.len() < HEADER {
        return Peeked::NotYet;
    }
    let len = get32(text, 2) as usize;
    if text[0] != 0 || text[1] != 0 || len < LEAST_AMS || len > GREATEST_AMS {
        return Peeked::Broken;
    }
    if text.len() < HEADER + len {
        return Peeked::NotYet;
    }
    Peeked::Frame(&text[HEADER..HEADER + len])
}

/// The first six bytes.
pub(crate) fn header_at(text: &[u8]) -> [u8; 6]
    requires { 6 ≤ length text.now }
    ensures { result ≡ take 6 text.now }
{
    [text[0], text[1], text[2], text[3], text[4], text[5]]
}
