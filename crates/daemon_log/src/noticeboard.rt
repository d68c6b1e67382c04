//! The board on which the server and its store tell the log what happened.

use crate::line::Level;
use crate::posted::{Posted, Reloaded, SaveTold, Served};
use crate::store_lines::{StoreLine, StoreLines};
use ads_base::NoMemory;
use std::alloc::Global;
use std::cell::Cell;
use std::rc::Rc;

/// The greatest number of lines of the store that wait.
const MOST_LINES: usize = 256;

/// A board in memory, which its handles share: the server and its store post, and the log takes down. It holds the last
/// outcome of a reload and of a save, counts, and the lines of the store's file.
#[derive(Drop)]
pub struct Noticeboard {
    alloc: Global,
    cell: Rc<Cell<Posted>>,
    // None only while it is in hand.
    store: Rc<Cell<Option<StoreLines>>>,
}

impl Noticeboard {
    /// A board on which nothing is posted.
    pub fn new(alloc: Global) -> Result<Noticeboard, NoMemory> {
        let cell = Rc::new(alloc, Cell::new(Posted::new()))?;
        let store = Rc::new(alloc, Cell::new(Some(no_lines(alloc))))?;
        Ok(Noticeboard { alloc, cell, store })
    }

    /// One more handle of the same board.
    pub fn handle(&self) -> Result<Noticeboard, NoMemory> {
        let cell = self.cell.clone()?;
        let store = self.store.clone()?;
        let alloc = self.alloc;
        Ok(Noticeboard { alloc, cell, store })
    }

    /// What became of a changed description.
    pub fn post_reload(&self, reload: Reloaded) {
        let mut posted = self.cell.get();
        posted.reload = Some(reload);
        self.cell.set(posted);
    }

    /// What became of a body that was to be saved.
    pub fn post_save(&self, save: SaveTold) {
        let mut posted = self.cell.get();
        posted.add_save(save);
        self.cell.set(posted);
    }

    /// What the server counted.
    pub fn post_counts(&self, served: Served) {
        let mut posted = self.cell.get();
        posted.served = served;
        self.cell.set(posted);
    }

    /// A line of the store's file. Beyond 256 that wait it is lost.
    pub fn post_line(&self, level: Level, text: String) {
        let mut lines = self.lines_in_hand();
        if lines.lines.len() < MOST_LINES {
            let _ = lines.lines.push(StoreLine { level, text });
        }
        self.give_back(lines);
        let mut posted = self.cell.get();
        posted.has_lines = true;
        self.cell.set(posted);
    }

    /// Why nothing is saved; None where saves go on.
    pub fn post_held(&self, why: Option<String>) {
        let mut posted = self.cell.get();
        posted.held = why.is_some();
        self.cell.set(posted);
        let mut lines = self.lines_in_hand();
        lines.held = why;
        self.give_back(lines);
    }

    /// The lines that wait, and why nothing is saved: taken down, till they are given back.
    pub(crate) fn lines_in_hand(&self) -> StoreLines {
        match self.store.replace(None) {
            Some(lines) => lines,
            None => no_lines(self.alloc),
        }
    }

    /// Gives back what was in hand.
    pub(crate) fn give_back(&self, lines: StoreLines) {
        self.store.set(Some(lines));
    }

    /// What is posted; the outcomes are taken down, and the counts stay.
    pub(crate) fn take(&self) -> Posted {
        let posted = self.cell.get();
        let mut left = posted;
        left.reload = None;
        left.save = None;
        left.has_lines = false;
        self.cell.set(left);
        posted
    }
}

fn no_lines(alloc: Global) -> StoreLines {
    StoreLines {
        lines: Vec::new(alloc),
        held: None,
    }
}
