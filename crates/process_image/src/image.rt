//! The image: the bytes of one port.
ghost use Rattle.std.specs.Prelude.{◌≡◌, ℕ, ◌+◌, ◌<◌, ◌≤◌, length, take, drop, replicate, IfOk};
ghost use Rattle.std.specs.Borrow.{sem};
ghost use Rattle.process_image.specs.Spans.{IsWalk};

use crate::block::{Block, Deed, Place, release, reserve};
use crate::cell::Cell;
use crate::parts::Parts;
use crate::scalar::Scalar;
use crate::span::Span;
use ads_base::NoMemory;
use std::alloc::Global;
use std::marker::Model;

/// The greatest image, in bytes.
pub const MAX_IMAGE: u32 = 4_194_304;

/// One block of bytes behind a raw pointer, which contracts see as the list of its bytes.
pub struct Image {
    place: Place,
    len: u32,
    block: Block,
    deed: Deed<Global>,
    alloc: Global,
}

impl Model for Image {
    ghost use Rattle.std.specs.Prelude.{ℕ, List};
    ghost use Rattle.process_image.specs.Image.{IsImage};

    ghost Value = { List ℕ };

    ghost view = { λ i. i.block.bytes };

    ghost invariant = { IsImage };
}

impl Image {
    ghost use Rattle.process_image.specs.Parts.{LendsPart};

    /// An image of zeros. Its block is given back at the drop.
    pub fn new(alloc: Global, len: u32) -> Result<Image, NoMemory>
        requires { len ≤ MAX_IMAGE }
        ensures { IfOk result (λ image. image ≡ replicate len 0) }
    {
        let (at, mut block, deed) = reserve(&alloc, len as usize)?;
        for count in 0..len {
            block.put(at, count as usize, 0);
        }
        Ok(Image {
            place: Place { at },
            len,
            block,
            deed,
            alloc,
        })
    }

    /// The number of bytes.
    pub fn len(&self) -> u32
        ensures { result ≡ length self.now }
    {
        self.len
    }

    /// Some of the bytes, for reading.
    pub fn part(&self, s: Span) -> &[u8]
        requires { s.at + s.len ≤ length self.now }
        ensures { result.now ≡ take s.len (drop s.at self.now) }
    {
        let at = s.at as usize;
        let len = s.len as usize;
        self.block.slice(self.place.at, at, len)
    }

    /// Some of the bytes, for writing: what stands there at the end is the image's new content,
    /// and all else stays.
    pub fn part_mut(&mut self, s: Span) -> &mut [u8]
        requires { s.at + s.len ≤ length self.old }
        ensures* lends { sem 𝓛 (LendsPart self.entry s.at s.len result) }
        ensures value { result.now ≡ take s.len (drop s.at self.old) }
    {
        let at = s.at as usize;
        let len = s.len as usize;
        self.block.slice_mut(self.place.at, at, len)
    }

    /// The number at a place.
    pub fn cell<T: Scalar>(&mut self, at: u32) -> Cell<'_, T>
        requires { at + T.SIZE ≤ length self.old }
        ensures image { result.image.ghost_name ≡ self.entry.ghost_name }
        ensures now { result.image.now ≡ self.old }
        ensures at { result.at ≡ at }
    {
        Cell::new(self, at)
    }

    /// A walk over parts of the image, which rise and do not overlap.
    pub fn parts_mut<'a>(&'a mut self, spans: &'a [Span]) -> Parts<'a>
        requires { IsWalk spans.now 0 (length self.old) }
        ensures image { result.image.ghost_name ≡ self.entry.ghost_name }
        ensures now { result.image.now ≡ self.old }
        ensures spans { result.spans.now ≡ spans.now }
        ensures place { result.place ≡ 0 }
    {
        Parts::new(self, spans)
    }
}

impl Drop for Image {
    fn drop(self) {
        let Image {
            place,
            len,
            block,
            deed,
            alloc,
        } = self;
        let Place { at } = place;
        release(&alloc, at, len as usize, block, deed);
    }
}
