//! Bytes that can grow: a frame, a file, a text.

ghost use Rattle.std.specs.Prelude.{◌≡◌, ◌≤◌, [], ◌∷◌, ◌++◌, length, take, OnOk, OnErr, IfOk};
ghost use Rattle.std.specs.Borrow.{sem};
ghost use Rattle.ads_base.specs.Octets.{LendsOctets};

use crate::NoMemory;
use std::alloc::Global;
use std::marker::Model;

/// A list of bytes.
#[derive(Debug, Drop)]
pub struct Octets {
    bytes: Vec<u8>,
}

impl Model for Octets {
    ghost use Rattle.std.specs.Prelude.{ℕ, List};

    ghost Value = { List ℕ };

    ghost view = { λ o. o.bytes.items };
}

impl Octets {
    /// No bytes. Nothing is allocated.
    pub fn new(alloc: Global) -> Self
        ensures { result ≡ [] }
    {
        Octets {
            bytes: Vec::new(alloc),
        }
    }

    /// The bytes of a vector, which takes no memory.
    pub fn from_vec(bytes: Vec<u8>) -> Self
        ensures { result ≡ bytes.items }
    {
        Octets { bytes }
    }

    /// The vector of the bytes, which takes no memory.
    pub fn into_vec(self) -> Vec<u8>
        ensures { result.items ≡ self }
    {
        let Octets { bytes } = self;
        bytes
    }

    /// A copy of some bytes.
    pub fn copy_of(alloc: Global, bytes: &[u8]) -> Result<Self, NoMemory>
        ensures { IfOk result (λ copy. copy ≡ bytes.now) }
    {
        let mut copy = Octets::new(alloc);
        copy.put(alloc, bytes)?;
        Ok(copy)
    }

    /// The number of bytes.
    pub fn len(&self) -> usize
        ensures { result ≡ length self.now }
    {
        self.bytes.len()
    }

    /// The bytes.
    pub fn as_slice(&self) -> &[u8]
        ensures { result.now ≡ self.now }
    {
        self.bytes.as_slice()
    }

    /// The bytes for writing; their number stays.
    pub fn as_mut_slice(&mut self) -> &mut [u8]
        ensures* lends { sem 𝓛 (LendsOctets self.entry result) }
        ensures value { result.now ≡ self.old }
    {
        self.bytes.as_mut_slice()
    }

    /// Appends one byte.
    pub fn push(&mut self, _alloc: Global, byte: u8) -> Result<(), NoMemory>
        ensures ok { OnOk result (self.new ≡ self.old ++ byte ∷ []) }
        ensures no_memory { OnErr result (self.new ≡ self.old) }
    {
        self.bytes.push(byte)?;
        Ok(())
    }

    /// Appends the bytes.
    pub fn put(&mut self, alloc: Global, bytes: &[u8]) -> Result<(), NoMemory>
        ensures ok { OnOk result (self.new ≡ self.old ++ bytes.now) }
        ensures no_memory { OnErr result (self.new ≡ self.old) }
    {
        // A field of a known width is moved in one step, where the copy of any length is a call.
        if let Some(four) = bytes.as_array::<4>() {
            return self.put_array(alloc, four);
        }
        if let Some(two) = bytes.as_array::<2>() {
            return self.put_array(alloc, two);
        }
        if let Some(eight) = bytes.as_array::<8>() {
            return self.put_array(alloc, eight);
        }
        self.bytes.extend_from_slice(bytes)?;
        Ok(())
    }

    /// Appends an array of bytes.
    #[inline(always)]
    pub fn put_array<const N: usize>(
        &mut self,
        _alloc: Global,
        bytes: &[u8; N],
    ) -> Result<(), NoMemory>
        ensures ok { OnOk result (self.new ≡ self.old ++ bytes.now) }
        ensures no_memory { OnErr result (self.new ≡ self.old) }
    {
        self.bytes.extend_from_slice(bytes.as_slice())?;
        Ok(())
    }

    /// Makes room for so many further bytes, which no clause sees.
    pub fn reserve(&mut self, _alloc: Global, more: usize) -> Result<(), NoMemory>
        ensures { self.new ≡ self.old }
    {
        self.bytes.reserve(more)?;
        Ok(())
    }

    /// Keeps the first `len` bytes.
    pub fn cut(&mut self, len: usize)
        requires { len ≤ length self.old }
        ensures { self.new ≡ take len self.old }
    {
        self.bytes.truncate(len);
    }

    /// Hands on how an append in parts ended. Where memory was wanting, it cuts back to the first `before` bytes.
    pub fn cut_back(&mut self, before: usize, put: Result<(), NoMemory>) -> Result<(), NoMemory>
        requires { OnErr put (before ≤ length self.old) }
        ensures answer { result ≡ put }
        ensures ok { OnOk put (self.new ≡ self.old) }
        ensures no_memory { OnErr put (self.new ≡ take before self.old) }
    {
        if put.is_err() {
            self.cut(before);
        }
        put
    }
}
