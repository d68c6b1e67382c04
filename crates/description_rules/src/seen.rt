//! Texts that came before.
ghost use Rattle.std.specs.Prelude.{◌≡◌, ◌∷◌, ◌++◌, [], not, bytes_eq, IfOk, OnOk, if◌then◌else◌};
ghost use Rattle.std.specs.List.{list_all};
ghost use Rattle.name_paths.specs.Identifier.{lower};
ghost use Rattle.description_rules.specs.Next.{IsNext};
ghost use Rattle.description_rules.specs.NameStarts.{IsAdded};

use ads_base::NoMemory;
use indexmap::IndexMap;
use name_index::lower_copy;
use std::alloc::Global;
use std::marker::Model;

/// Texts, each of them once, in the order in which they came.
#[derive(Drop)]
pub struct SeenTexts {
    texts: IndexMap<Vec<u8>, u8>,
}

impl Model for SeenTexts {
    ghost use Rattle.std.specs.Prelude.{List, ℕ, map};

    ghost Value = { List (List ℕ) };

    ghost view = { λ s. map (λ e. e.0.items) s.texts.entries };
}

impl SeenTexts {
    pub fn new(alloc: Global) -> Self
        ensures { result ≡ [] }
    {
        SeenTexts {
            texts: IndexMap::new(alloc),
        }
    }

    /// Whether no text that came before is this one.
    pub fn is_new(&self, text: &[u8]) -> bool
        ensures { result ≡ list_all (λ e. not (bytes_eq e text.now)) self.now }
    {
        self.texts.get(text).is_none()
    }

    /// Notes a text, and tells whether it is new.
    pub fn add(&mut self, text: Vec<u8>) -> Result<bool, NoMemory>
        ensures new { IfOk result (λ new. new ≡ list_all (λ e. not (bytes_eq e text.items)) self.old) }
        ensures noted { IfOk result (λ new. self.new ≡ (if new then self.old ++ text.items ∷ [] else self.old)) }
    {
        let new = self.is_new(text.as_slice());
        if new {
            self.texts.insert(text, 0)?;
        }
        Ok(new)
    }
}

/// Notes a text, which may be there already.
pub fn note(alloc: Global, texts: &mut SeenTexts, text: &[u8]) -> Result<(), NoMemory>
    ensures { OnOk result (IsAdded (text.now ∷ []) texts.old texts.new) }
{
    let copy = Vec::from_slice(alloc, text)?;
    texts.add(copy)?;
    Ok(())
}

/// Notes a text in lower case that is right by itself and new, and tells whether it is.
pub fn note_lower(
    alloc: Global,
    texts: &mut SeenTexts,
    allowed: bool,
    text: &[u8],
) -> Result<bool, NoMemory>
    ensures { IfOk result (IsNext allowed texts.old texts.new (lower text.now)) }
{
    if !allowed {
        return Ok(false);
    }
    let copy = lower_copy(alloc, text)?;
    texts.add(copy)
}
