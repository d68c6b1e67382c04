//! What a daemon is to do.

ghost use Rattle.std.specs.Prelude.{◌≡◌, ◌<◌, ◌≤◌, ◌*◌, ◌++◌, length, codes, IfOk};
ghost use Rattle.daemon_words.specs.KeptNames.{kept_name};

use crate::{IpNet, LogForm, OthersWord, ProfileWord, SignalTable};
use ads_base::{ListOf, NoMemory};
use cli_words::Text;
use std::alloc::Global;

/// What a daemon is to do.
#[derive(Drop)]
pub struct Setup {
    /// The file that describes the plant.
    pub description: Text,
    /// The addresses to listen at, one to sixteen, with a comma and a blank between each two.
    pub listen: Text,
    /// The file that keeps persistent symbols.
    pub store: Option<Text>,
    /// How many seconds lie between two looks at what is to be saved: 1 to 86,400.
    pub save_each: u32,
    /// A damaged store is copied and begun anew, where it would end the daemon else.
    pub begins_damaged: bool,
    /// Each accepted description is kept beside the store, and served where a later start finds none that is accepted.
    pub keeps_description: bool,
    /// How many seconds a changed description is to stand unchanged before it is taken: 0 to 3,600.
    pub settle: u32,
    /// Who may connect, at most 256 nets; everybody where there is none.
    pub allow: ListOf<IpNet>,
    /// What each machine without a route may do; without this it may not connect.
    pub others: Option<OthersWord>,
    /// Which server it is.
    pub profile: ProfileWord,
    /// The signals 0, 1, 2, .. of the description, one to 1,024.
    pub signals: ListOf<SignalTable>,
    /// The status file.
    pub status: Option<Text>,
    /// How the log is written.
    pub log: LogForm,
    /// The file that ends the daemon once it is there.
    pub stop_file: Option<Text>,
    ghost least: { 0 < save_each },
    ghost most: { save_each ≤ 86400 },
    ghost hour: { settle ≤ 3600 },
    ghost nets: { length allow ≤ 256 },
    ghost some: { 0 < length signals },
    ghost few: { length signals ≤ 1024 },
}

impl Setup {
    /// How many ticks lie between two looks at what is to be saved: a hundred a second.
    pub fn save_ticks(&self) -> u64
        ensures ticks { result ≡ 100 * self.now.save_each }
        ensures least { 100 ≤ result }
        ensures most { result ≤ 8640000 }
    {
        100 * u64::from(self.save_each)
    }

    /// The file in which accepted descriptions are kept: the store's name with `.description` behind it; None where they are not.
    pub fn kept_name(&self, alloc: Global) -> Result<Option<Text>, NoMemory>
        ensures { IfOk result (λ name. name ≡ kept_name self.now.keeps_description self.now.store) }
    {
        match &self.store {
            Some(store) if self.keeps_description => Ok(Some(with_ending(alloc, store)?)),
            _ => Ok(None),
        }
    }
}

fn with_ending(alloc: Global, store: &Text) -> Result<Text, NoMemory>
    ensures { IfOk result (λ name. name ≡ store.now ++ codes ".description") }
{
    let mut name = String::new(alloc);
    name.push_str(store.as_str())?;
    name.push_str(".description")?;
    Text::copy_of(alloc, name.as_str())
}
