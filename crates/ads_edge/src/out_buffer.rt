//! What was taken for a peer and is still to be sent.

ghost use Rattle.std.specs.Prelude.{◌≡◌, ◌≤◌, ◌==◌, ◌++◌, [], length, take, drop, min, vec_len, nat_lt, true, false, IfOk, OnErr};

use ads_base::NoMemory;
use std::alloc::Global;

/// The greatest number of bytes that a buffer holds: 256 KiB.
pub(crate) const OUT_ROOM: usize = 262_144;

/// Bytes in order, at most so many. What was sent leaves its room only when all is sent, so that no byte is moved.
#[derive(Drop)]
pub(crate) struct OutBuffer {
    pub(crate) bytes: Vec<u8>,
    pub(crate) sent: usize,
    ghost within: { sent ≤ vec_len bytes },
}

impl OutBuffer {
    ghost use Rattle.ads_edge.specs.Waiting.{waiting, room_left};

    /// Nothing waits. Nothing is allocated.
    pub(crate) fn new(alloc: Global) -> OutBuffer
        ensures { waiting result ≡ [] }
    {
        OutBuffer {
            bytes: Vec::new(alloc),
            sent: 0,
        }
    }

    /// The bytes that are still to be sent.
    pub(crate) fn waiting(&self) -> &[u8]
        ensures { result.now ≡ waiting self.now }
    {
        &self.bytes[self.sent..]
    }

    /// Whether all was sent.
    pub(crate) fn is_empty(&self) -> bool
        ensures { result ≡ (self.now.sent == vec_len self.now.bytes) }
    {
        self.sent == self.bytes.len()
    }

    /// Whether there is room for a byte.
    pub(crate) fn has_room(&self) -> bool
        ensures { result ≡ nat_lt (vec_len self.now.bytes) OUT_ROOM }
    {
        self.bytes.len() < OUT_ROOM
    }

    /// Takes as many first bytes as there is room for, and tells how many.
    #[inline(always)]
    pub(crate) fn put(&mut self, bytes: &[u8]) -> Result<usize, NoMemory>
        ensures count { IfOk result (λ n. n ≡ min (length bytes.now) (room_left self.old)) }
        ensures within { IfOk result (λ n. n ≤ length bytes.now) }
        ensures ok { IfOk result (λ n. waiting self.new ≡ waiting self.old ++ take n bytes.now) }
        ensures no_memory { OnErr result (waiting self.new ≡ waiting self.old) }
    {
        let n = bytes.len().min(OUT_ROOM.saturating_sub(self.bytes.len()));
        self.bytes.extend_from_slice(&bytes[..n])?;
        Ok(n)
    }

    /// Takes all of these bytes; false where there is no room for all, or no memory, and then nothing has changed.
    #[inline(always)]
    pub(crate) fn put_all(&mut self, bytes: &[u8]) -> bool
        ensures taken { result ≡ true → waiting self.new ≡ waiting self.old ++ bytes.now }
        ensures room { result ≡ true → length bytes.now ≤ room_left self.old }
        ensures refused { result ≡ false → waiting self.new ≡ waiting self.old }
    {
        if bytes.len() > OUT_ROOM.saturating_sub(self.bytes.len()) {
            return false;
        }
        self.bytes.extend_from_slice(bytes).is_ok()
    }

    /// So many first bytes were sent.
    pub(crate) fn sent(&mut self, n: usize)
        requires { n ≤ length (waiting self.old) }
        ensures { waiting self.new ≡ drop n (waiting self.old) }
    {
        self.sent += n;
        if self.sent == self.bytes.len() {
            self.bytes.clear();
            self.sent = 0;
        }
    }
}
