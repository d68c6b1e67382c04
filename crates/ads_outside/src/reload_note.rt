//! What became of the reloads of a run.

use ads_base::ListOf;

/// The outcome of one reload of the description.
#[derive(Clone, Copy, Debug, PartialEq, Eq)]
pub enum ReloadNote {
    /// The description was accepted, and its version is this.
    Ok(u8),
    /// The description was refused by the rule of this number; 0: the text is no TOML document.
    Refused(u8),
}

/// The outcomes in the order of the reloads.
pub type ReloadNotes = ListOf<ReloadNote>;
