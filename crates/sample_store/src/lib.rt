//! Where recorded samples are kept: the trait of a keeper, and one in memory.
#![tactic(auto)]

mod keeper;
mod keeper_open;
mod kept;
mod map_keeper;
mod places;
mod row;
mod total;
mod totalled;
mod totals;

pub use keeper::Keeper;
pub use keeper_open::KeeperOpen;
pub use kept::Kept;
pub use map_keeper::MapKeeper;
pub use row::Row;
pub use total::Total;
pub use totalled::Totalled;
