//! One block of raw memory: the bytes that were put there, and behind them the room for more.
ghost use Rattle.std.specs.Prelude.{◌≡◌, ℕ, ◌+◌, ◌<◌, ◌≤◌, ◌^◌, List, [], ◌∷◌, ◌++◌};
ghost use Rattle.std.specs.Prelude.{length, take, drop, IfOk};
ghost use Rattle.std.specs.Borrow.{sem};
ghost use base.Fml.{ftrue};
ghost use denote.RawPtr.{Ptr};
ghost use Rattle.process_image.specs.Ownership.{block_owned, block_lent, deed_owned};

use std::alloc::{AllocError, Allocator};
use std::marker::{Model, PhantomData, Send, Sync};
use std::slice;

/// Where a block begins. It owns nothing.
pub(crate) struct Place {
    pub(crate) at: *mut u8,
}

unsafe impl Send for Place {}

unsafe impl Sync for Place {}

/// The owner of a block's bytes and of the room behind them. It takes no space: the pointer is kept
/// beside it.
pub(crate) struct Block {
    ghost at: { Ptr },
    ghost bytes: { List ℕ },
    ghost room: { ℕ },
}

impl Model for Block {
    ghost also_owns = { λ b. block_owned b.at b.bytes b.room };

    ghost also_shares = { λ b _ κ. block_lent b.at b.bytes b.room κ };
}

unsafe impl Send for Block {}

unsafe impl Sync for Block {}

/// The right to give a block of `len` bytes back to the allocator that it came from.
/// It takes no space.
pub(crate) struct Deed<A: Allocator> {
    mark: PhantomData<*const A>,
    ghost at: { Ptr },
    ghost len: { ℕ },
    ghost alloc: { A },
}

impl<A: Allocator> Model for Deed<A> {
    ghost also_owns = { λ d. deed_owned (A.dealloc_token d.alloc) d.at d.len };

    ghost also_shares = { λ _ _ _. ftrue };
}

unsafe impl<A: Allocator + Send> Send for Deed<A> {}

// A `&` to it holds nothing.
unsafe impl<A: Allocator> Sync for Deed<A> {}

/// A block of `len` bytes from the allocator, in which nothing was put yet.
pub(crate) fn reserve<A: Allocator>(
    alloc: &A,
    len: usize,
) -> Result<(*mut u8, Block, Deed<A>), AllocError>
    requires { len < 2 ^ 63 }
    ensures { IfOk result (λ r. (r.1.at ≡ r.0) × (r.1.bytes ≡ []) × (r.1.room ≡ len)
        × (r.2.at ≡ r.0) × (r.2.len ≡ len) × (r.2.alloc ≡ alloc.now)) }
{
    match alloc.allocate(len, 1) {
        Ok(at) => Ok((at, Block {}, Deed { mark: PhantomData })),
        Err(error) => Err(error),
    }
}

/// Gives a block back to its allocator, whatever was put in it.
pub(crate) fn release<A: Allocator>(alloc: &A, at: *mut u8, len: usize, block: Block, deed: Deed<A>)
    requires { (block.at ≡ at) × (length block.bytes + block.room ≡ len)
        × (deed.at ≡ at) × (deed.len ≡ len) × (deed.alloc ≡ alloc.now) }
{
    let Block {} = block;
    let Deed { mark: _ } = deed;
    unsafe {
        alloc.deallocate(at, len, 1);
    }
}

impl Block {
    ghost use Rattle.process_image.specs.Lends.{LendsRun};

    /// Puts one byte behind the others.
    pub(crate) fn put(&mut self, at: *mut u8, count: usize, byte: u8)
        requires { (at ≡ self.old.at) × (count ≡ length self.old.bytes) × (0 < self.old.room) }
        ensures { (self.new.at ≡ self.old.at) × (self.new.bytes ≡ self.old.bytes ++ byte ∷ [])
            × (self.new.room + 1 ≡ self.old.room) }
    {
        unsafe { at.add(count).write(byte) }
    }

    /// The `len` bytes from `from` on.
    pub(crate) fn slice(&self, at: *mut u8, from: usize, len: usize) -> &[u8]
        requires { (at ≡ self.now.at) × (from + len ≤ length self.now.bytes) }
        ensures { result.now ≡ take len (drop from self.now.bytes) }
    {
        unsafe { slice::from_raw_parts(at.add(from), len) }
    }

    /// The `len` bytes from `from` on, for writing.
    pub(crate) fn slice_mut(&mut self, at: *mut u8, from: usize, len: usize) -> &mut [u8]
        requires { (at ≡ self.old.at) × (from + len ≤ length self.old.bytes) }
        ensures* lends { sem 𝓛 (LendsRun self.entry from len result) }
        ensures value { result.now ≡ take len (drop from self.old.bytes) }
    {
        unsafe { slice::from_raw_parts_mut(at.add(from), len) }
    }
}
