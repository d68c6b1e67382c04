//! A store's file that is damaged.

use crate::copies::{CopyKind, make_copy};
use crate::fault::{StoreFault, damage_words};
use crate::kept::Kept;
use crate::slots::{SECOND_SLOT, SlotDamage, damage_of};
use crate::system::slot_at;
use daemon_log::Level;
use std::os::unix::fs::FileExt;

impl Kept {
    /// Looks what is damaged in the file. Where nothing is, nothing is done; else, where that is wanted, the file is copied whole,
    /// and the gates of what is damaged are closed: what can be read stands.
    pub(crate) fn mend(&mut self, begins: bool) -> Result<(), StoreFault> {
        let alloc = self.rt.alloc();
        let first = damage_of(slot_at(alloc, &self.file, 0)?.as_slice());
        let second = damage_of(slot_at(alloc, &self.file, SECOND_SLOT)?.as_slice());
        if first == SlotDamage::Whole && second == SlotDamage::Whole {
            return Ok(());
        }
        if !begins {
            return Err(StoreFault::Damaged(first, second));
        }
        self.begin_damaged(first, second)
    }

    fn begin_damaged(&mut self, first: SlotDamage, second: SlotDamage) -> Result<(), StoreFault> {
        let copy = make_copy(
            &self.rt,
            &self.file,
            self.real.as_str(),
            CopyKind::Damaged,
            None,
        )?;
        self.close_gate(0, first)?;
        self.close_gate(SECOND_SLOT, second)?;
        self.file.sync_all()?;
        self.tell_damage(copy.as_str(), first, second);
        Ok(())
    }

    fn close_gate(&self, place: u64, damage: SlotDamage) -> Result<(), StoreFault> {
        if damage != SlotDamage::Whole {
            self.file.write_all_at(&[0], place)?;
        }
        Ok(())
    }

    fn tell_damage(&self, copy: &str, first: SlotDamage, second: SlotDamage) {
        let alloc = self.rt.alloc();
        let Ok(what) = damage_words(alloc, first, second) else {
            return;
        };
        let what = what.as_str();
        let text = format!(in alloc;
            "store: damaged, {what}; copied to {copy}, and begun with what can be read"
        );
        self.tell(Level::Error, text);
    }
}
