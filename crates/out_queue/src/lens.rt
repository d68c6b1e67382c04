//! How long each of the frames is that wait, one behind another.

ghost use Rattle.std.specs.Prelude.{◌≡◌, ◌==◌, ◌↔◌, [], ◌∷◌, ◌++◌, length, drop, IsNone, IfSome, OnOk, OnErr};

use ads_base::NoMemory;
use std::alloc::Global;
use std::marker::Model;

// The lengths, which contracts see as a list.
#[derive(Drop)]
pub(crate) struct Lens {
    // The lengths, behind those of frames that are gone.
    lens: Vec<u32>,
    // How many are gone.
    gone: usize,
}

impl Model for Lens {
    ghost use Rattle.std.specs.Prelude.{◌≤◌, ℕ, List, length, drop};

    ghost Value = { List ℕ };

    ghost view = { λ l. drop l.gone l.lens.items };

    ghost invariant = { λ l. l.gone ≤ length l.lens.items };
}

impl Lens {
    // No length.
    pub(crate) fn new(alloc: Global) -> Lens
        ensures { result ≡ [] }
    {
        Lens {
            lens: Vec::new(alloc),
            gone: 0,
        }
    }

    // Puts a length behind the others.
    #[inline(always)]
    pub(crate) fn push(&mut self, len: u32) -> Result<(), NoMemory>
        ensures ok { OnOk result (self.new ≡ self.old ++ len ∷ []) }
        ensures no_memory { OnErr result (self.new ≡ self.old) }
    {
        if self.lens.len() == self.lens.capacity() {
            self.move_up();
        }
        self.lens.push(len)?;
        Ok(())
    }

    // The first length.
    pub(crate) fn front(&self) -> Option<u32>
        ensures none { IsNone result ↔ (self.now ≡ []) }
        ensures some { IfSome result (λ len. self.now ≡ len ∷ drop 1 self.now) }
    {
        self.lens.get(self.gone).copied()
    }

    // The first length is gone.
    pub(crate) fn pop(&mut self) -> Option<u32>
        ensures none { IsNone result ↔ (self.old ≡ []) }
        ensures some { IfSome result (λ len. self.old ≡ len ∷ self.new) }
        ensures rest { self.new ≡ drop 1 self.old }
    {
        let len = self.front()?;
        self.gone += 1;
        Some(len)
    }

    // Whether there is none.
    pub(crate) fn is_empty(&self) -> bool
        ensures { result ≡ (length self.now == 0) }
    {
        self.gone == self.lens.len()
    }

    // All are gone.
    pub(crate) fn clear(&mut self)
        ensures { self.new ≡ [] }
    {
        self.lens.clear();
        self.gone = 0;
    }

    // Moves what is left over what is gone, where that is more: a length is moved at most once for each that is gone.
    #[inline(never)]
    fn move_up(&mut self)
        ensures { self.new ≡ self.old }
    {
        let left = self.lens.len() - self.gone;
        if self.gone >= left {
            self.lens.copy_within(self.gone.., 0);
            self.lens.truncate(left);
            self.gone = 0;
        }
    }
}
