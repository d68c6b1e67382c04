//! The handles of one client.

ghost use Rattle.std.specs.Prelude.{◌≡◌, ◌+◌, ◌^◌, ◌<◌, ◌≤◌, ◌↔◌, [], ◌∷◌, ◌++◌, map, length, slice_index_or, All};
ghost use Rattle.std.specs.Prelude.{Contains, false, None, Ok, Err, Some, IsErr, IfOk, MatchOption, OnOk, OnErr};
ghost use Rattle.spec_machine.specs.Handles.{Grant, Release, Reload, status_of};
ghost use Rattle.spec_machine.specs.HandleLaws.{handles_of};
ghost use Rattle.symbol_table.specs.Moves.{moved_place};
ghost use Rattle.sym_handles.specs.History.{History, IsFull, look_up, release_of, Represents};
ghost use Rattle.sym_handles.specs.Records.{is_full};
ghost use Rattle.sym_handles.specs.Found.{kept_handle, IsHandleAt};
ghost use Rattle.sym_handles.specs.Kept.{KeptHandle, HasPlaceInOldWorld, moved_handle, with_granted, without};

use crate::entries::{Entry, position_of};
use crate::records::{Record, add, live_count, move_all, take};
use ads_base::NoMemory;
use return_codes::Code;
use slab::Slab;
use std::alloc::Global;
use std::marker::Model;
use symbol_table::{Moves, Place};

/// How many handles of a client may be live.
pub const MAX_LIVE: usize = 4096;

/// No handle is granted: 4,096 are live, or 4,294,967,295 were granted.
#[derive(Clone, Copy, Debug, PartialEq, Eq)]
pub struct Full;

/// The handles of one client, which contracts see as those that are not released, by rising number.
/// What a call answers is said of every history that they stand for.
#[derive(Debug, Drop)]
pub struct Handles {
    records: Slab<Record>,
    // By rising handle.
    entries: Vec<Entry>,
    granted: u32,
    live: usize,
}

impl Model for Handles {
    ghost use Rattle.sym_handles.specs.Kept.{Kept};
    ghost use Rattle.sym_handles.specs.Records.{all_held, AreHeld};

    ghost Value = { Kept };

    ghost view = { λ h. record { granted = h.granted; handles = all_held h.records.slots h.entries.items } };

    ghost invariant = { λ h. AreHeld h.records.slots h.entries.items h.granted h.live };
}

impl Handles {
    /// No handles. Nothing is allocated.
    pub fn new(alloc: Global) -> Result<Handles, NoMemory>
        ensures nothing { IfOk result (λ handles. Represents handles []) }
        ensures kept { IfOk result (λ handles. handles ≡ record { granted = 0; handles = [] }) }
    {
        Ok(Handles {
            records: Slab::new(alloc),
            entries: Vec::new(alloc),
            granted: 0,
            live: 0,
        })
    }

    /// Grants a handle for a place of a port: one more than those granted before, from 1 on. After want
    /// of memory nothing has changed. Beckhoff Information System, index group 0xF003.
    pub fn grant(
        &mut self,
        _alloc: Global,
        port: u16,
        place: Place,
    ) -> Result<Result<u32, Full>, NoMemory>
        ensures full { IfOk result (λ answer. (history : History) → Represents self.old history
            → (IsErr answer ↔ IsFull history)) }
        ensures err { IfOk result (λ answer. OnErr answer (self.new ≡ self.old)) }
        ensures number { IfOk result (λ answer. IfOk answer (λ handle. handle ≡ self.old.granted + 1)) }
        ensures fits { IfOk result (λ answer. IfOk answer (λ handle. handle < 2 ^ 32)) }
        ensures granted { IfOk result (λ answer. OnOk answer ((history : History) → Represents self.old history
            → Represents self.new (history ++ Grant port place ∷ []))) }
        ensures kept { IfOk result (λ answer. OnOk answer (self.new ≡ with_granted port place self.old)) }
        ensures no_memory { OnErr result (self.new ≡ self.old) }
    {
        if self.is_full() {
            return Ok(Err(Full));
        }
        let handle = self.granted + 1;
        let granted = Record {
            port,
            place: Some(place),
        };
        add(&mut self.records, &mut self.entries, handle, granted)?;
        self.granted = handle;
        self.live += 1;
        Ok(Ok(handle))
    }

    /// The place of a handle. 0x710 where it was never granted, was granted on another port or is
    /// released; 0x711 where it is outdated. Beckhoff Information System, index group 0xF005.
    pub fn look(&self, handle: u32, port: u16) -> Result<Place, Code>
        ensures answer { (history : History) → Represents self.now history
            → result ≡ look_up (status_of history handle port) }
        ensures kept { IfOk result (λ place. Contains self.now.handles
            (record { number = handle; port = port; place = Some place })) }
    {
        match self.position(handle, port) {
            None => Err(Code::C710),
            Some(place) => self.record_at(place).place.ok_or(Code::C711),
        }
    }

    /// Releases a handle, once; an outdated one too, and nothing of it stays. 0x710 as for `look`, and then nothing has changed.
    /// Beckhoff Information System, index group 0xF006.
    pub fn release(&mut self, handle: u32, port: u16) -> Result<(), Code>
        ensures answer { (history : History) → Represents self.old history
            → result ≡ release_of (status_of history handle port) }
        ensures ok { OnOk result ((history : History) → Represents self.old history
            → Represents self.new (history ++ Release handle ∷ [])) }
        ensures kept { OnOk result (self.new ≡ record self.old { handles = without handle self.old.handles }) }
        ensures err { OnErr result (self.new ≡ self.old) }
    {
        let place = match self.position(handle, port) {
            None => return Err(Code::C710),
            Some(place) => place,
        };
        let taken = take(&mut self.records, &mut self.entries, place);
        self.live -= live_count(&taken);
        Ok(())
    }

    /// Each live handle goes on with its place after the reload; one that has none there is outdated,
    /// for good. The places of the live handles lie in the reload's old world. It takes no memory.
    pub fn moved(&mut self, m: &Moves)
        requires { All (HasPlaceInOldWorld m.now) self.old.handles }
        ensures moved { (history : History) → Represents self.old history
            → Represents self.new (history ++ Reload (moved_place m.now) ∷ []) }
        ensures kept { self.new ≡ record self.old { handles = map (moved_handle m.now) self.old.handles } }
    {
        let live = move_all(&mut self.records, self.entries.as_slice(), m);
        self.live = live;
    }

    fn is_full(&self) -> bool
        ensures full { result ≡ is_full self.now.granted self.now.handles }
        ensures room { result ≡ false → self.now.granted < 4294967295 }
    {
        self.live >= MAX_LIVE || self.granted == u32::MAX
    }

    // Where the handle of this port stands in the list.
    fn position(&self, handle: u32, port: u16) -> Option<usize>
        ensures { MatchOption result (kept_handle handle port self.now.handles ≡ None)
            (IsHandleAt self.now.handles handle port) }
    {
        let place = position_of(self.entries.as_slice(), handle)?;
        if self.record_at(place).port == port {
            Some(place)
        } else {
            None
        }
    }

    fn record_at(&self, place: usize) -> Record
        requires { place < length self.now.handles }
        ensures port { (d : KeptHandle) → result.port ≡ (slice_index_or self.now.handles place d).port }
        ensures place { (d : KeptHandle) → result.place ≡ (slice_index_or self.now.handles place d).place }
    {
        let key = self.entries[place].key;
        self.records[key]
    }
}
