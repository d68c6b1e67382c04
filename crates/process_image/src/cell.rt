//! One number in an image.
ghost use Rattle.std.specs.Prelude.{◌≡◌, ◌+◌, ◌≤◌, length, take, drop};
ghost use Rattle.std.specs.Int.{bytes_low_first};
ghost use Rattle.process_image.specs.Bytes.{with_part};

use crate::image::Image;
use crate::scalar::Scalar;
use crate::span::Span;
use std::marker::PhantomData;

/// A number at a place of an image, which it borrows.
#[derive(Drop)]
pub struct Cell<'a, T: Scalar> {
    pub image: &'a mut Image,
    pub at: u32,
    kind: PhantomData<T>,
    ghost within: { at + T.SIZE ≤ length image.now },
}

impl<'a, T: Scalar> Cell<'a, T> {
    /// A cell at a place of the image.
    pub(crate) fn new(image: &'a mut Image, at: u32) -> Cell<'a, T>
        requires { at + T.SIZE ≤ length image.old }
        ensures image { result.image.ghost_name ≡ image.entry.ghost_name }
        ensures now { result.image.now ≡ image.old }
        ensures at { result.at ≡ at }
    {
        Cell {
            image,
            at,
            kind: PhantomData,
        }
    }

    /// The number.
    pub fn get(&self) -> T
        ensures { result ≡ T.value_of (take T.SIZE (drop self.now.at self.now.image.now)) }
    {
        T::load(
            self.image.part(Span {
                at: self.at,
                len: T::SIZE,
            }),
        )
    }

    /// Writes a number: its bytes are the image's new content there, and all else stays.
    pub fn set(&mut self, v: T)
        ensures image { self.new.image.ghost_name ≡ self.old.image.ghost_name }
        ensures at { self.new.at ≡ self.old.at }
        ensures bytes { self.new.image.now
            ≡ with_part self.old.image.now self.old.at T.SIZE
            (bytes_low_first 0 T.SIZE (T.complement v)) }
    {
        let span = Span {
            at: self.at,
            len: T::SIZE,
        };
        v.store(self.image.part_mut(span));
    }
}
