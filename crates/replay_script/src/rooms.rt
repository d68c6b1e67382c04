//! How many further bytes connections take.

ghost use Rattle.std.specs.Prelude.{◌≡◌, ◌≤◌, ◌∷◌, [], List, nat_eq, OnOk, OnErr};
ghost use Rattle.indexmap.specs.IndexMap.{get};
ghost use Rattle.spec_machine.specs.Peers.{Room, taken_by, rooms_after};
ghost use Rattle.replay_script.specs.Rooms.{HoldsRooms};

use ads_base::NoMemory;
use indexmap::IndexMap;
use std::alloc::Global;

/// The connections that take a bounded number of further bytes; any other takes all.
#[derive(Drop)]
pub(crate) struct Rooms {
    pub(crate) map: IndexMap<u32, u64>,
}

impl Rooms {
    /// No connection is bounded.
    pub(crate) fn new(alloc: Global) -> Rooms
        ensures { HoldsRooms result [] }
    {
        Rooms {
            map: IndexMap::new(alloc),
        }
    }

    /// How many of so many bytes a connection takes.
    pub(crate) fn most(&self, conn: u32, len: u32) -> u32
        ensures most { (rs : List Room) → HoldsRooms self.now rs → result ≡ taken_by rs conn len }
        ensures within { result ≤ len }
    {
        match self.room(conn) {
            Some(left) => {
                if left < u64::from(len) {
                    left as u32
                } else {
                    len
                }
            }
            None => len,
        }
    }

    // How many further bytes a connection takes, where that is bounded.
    fn room(&self, conn: u32) -> Option<u64>
        ensures { result ≡ get nat_eq self.now.map conn }
    {
        // Mostly none is bounded, and a look-up hashes the number first.
        if self.map.is_empty() {
            return None;
        }
        self.map.get(&conn).copied()
    }

    /// A connection takes so many further bytes.
    pub(crate) fn set(&mut self, conn: u32, left: u64) -> Result<(), NoMemory>
        ensures ok { OnOk result ((rs : List Room) → HoldsRooms self.old rs → HoldsRooms self.new (record { number = conn; left = left } ∷ rs)) }
        ensures no_memory { OnErr result ((rs : List Room) → HoldsRooms self.old rs → HoldsRooms self.new rs) }
    {
        self.map.insert(conn, left)?;
        Ok(())
    }

    /// A connection took so many bytes.
    pub(crate) fn take(&mut self, conn: u32, n: u32)
        ensures { (rs : List Room) → HoldsRooms self.old rs → HoldsRooms self.new (rooms_after rs conn n) }
    {
        let Some(left) = self.room(conn) else {
            return;
        };
        let _ = self.map.insert(conn, left.saturating_sub(u64::from(n)));
    }
}
