//! The entries of an upload's types, found by name.

ghost use Rattle.std.specs.Prelude.{◌≡◌, ◌+◌, ◌^◌, ◌<◌, ◌++◌, ◌∷◌, [], length, slice_get, option_map, option_and_then, IfSome, OnOk};
ghost use Rattle.spec_plant.specs.TypeTexts as texts;
ghost use Rattle.type_layout.specs.ReadTexts.{elem_text_of, text_of};
ghost use Rattle.client_leaves.specs.Entries.{HasSubs, IsIndexed, entries_meant};
ghost use Rattle.client_leaves.specs.Table.{IsFound, type_meant};

use crate::table::FoundText;
use ads_base::NoMemory;
use name_index::NameIndex;
use std::alloc::Global;
use type_layout::{ElemText, read_type_text};
use type_upload::TypeEntry;

/// The entries of an upload's types, and the places of their names.
#[derive(Drop)]
pub(crate) struct Entries<'a> {
    pub list: Vec<TypeEntry<'a>>,
    pub index: NameIndex,
}

impl<'a> Entries<'a> {
    /// No entries.
    pub(crate) fn new(alloc: Global) -> Entries<'a>
        ensures list { result.list.items ≡ [] }
        ensures indexed { IsIndexed result }
    {
        Entries {
            list: Vec::new(alloc),
            index: NameIndex::new(alloc),
        }
    }

    /// One entry more.
    pub(crate) fn add(&mut self, alloc: Global, entry: TypeEntry<'a>) -> Result<(), NoMemory>
        requires indexed { IsIndexed self.old }
        requires few { length self.old.list.items + 1 < 2 ^ 32 }
        requires subs { HasSubs entry }
        ensures list { OnOk result (self.new.list.items ≡ self.old.list.items ++ entry.entry ∷ []) }
        ensures indexed { OnOk result (IsIndexed self.new) }
    {
        self.index.add(alloc, entry.name)?;
        self.list.push(entry)?;
        Ok(())
    }

    /// The type that a text writes, with the place of the type that it names.
    pub(crate) fn found_text<'b>(&self, text: &'b [u8]) -> Option<FoundText<'b>>
        requires { IsIndexed self.now }
        ensures text { option_map (λ f. text_of f.text) result ≡ texts.type_text_of text.now }
        ensures found { IfSome result (IsFound (entries_meant self.now)) }
    {
        match read_type_text(text) {
            None => None,
            Some(text) => {
                let type_place = self.place_of(text.elem);
                Some(FoundText { text, type_place })
            }
        }
    }

    // The place of the first type that an element names, ASCII case aside.
    fn place_of(&self, elem: ElemText<'_>) -> Option<u32>
        requires { IsIndexed self.now }
        ensures { option_and_then (λ k. slice_get (entries_meant self.now) k) result
            ≡ type_meant (entries_meant self.now) (elem_text_of elem.entry) }
    {
        match elem {
            ElemText::Plain(_) => None,
            ElemText::Text(_) => None,
            ElemText::Named(name) => self.index.find(name),
        }
    }
}
