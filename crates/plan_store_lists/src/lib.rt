//! The rows, the pairs, the seats and the lists of predecessors of a plan as lists in rising order of a key, each key
//! once: found by binary search, and changed in place. All are in blocks: rows in one for each application, pairs and
//! seats in one for every 256 serials, links in one for each application and again in one for each predecessor.
//!
//! ```text
//! let mut rows = vec![in alloc; fourth, third]?;
//! sort(&mut rows);
//! assert_eq!(rt; rows.as_slice(), [third, fourth].as_slice());
//! assert_eq!(rt; find(&rows, &fourth.key()), Ok(1));
//! assert!(rt; has_key(&rows, &third.key()) && !has_key(&rows, &fifth.key()));
//! ```
#![tactic(auto)]

mod app_lists;
mod arrival_blocks;
mod blocks;
mod changes;
mod grouped;
mod keyed;
mod link_blocks;
mod lists_then;
mod namings;
mod pair_blocks;
mod pairs;
mod row_blocks;
mod row_lists;
mod rows;
mod search;
mod seats;

pub use app_lists::AppList;
pub use arrival_blocks::ArrivalBlocks;
pub use blocks::{
    Block, Blocks, all_of, has_item, insert_into, of_group, remove_from, replace_in, reserve_for,
};
pub use changes::{insert_all, remove_all, replace_all};
pub use grouped::Grouped;
pub use keyed::Keyed;
pub use link_blocks::LinkBlocks;
pub use lists_then::ListsThen;
pub use namings::{Names, Naming};
pub use pair_blocks::PairBlocks;
pub use row_lists::RowBlocks;
pub use rows::PlanRow;
pub use search::{find, has_key, sort};
pub use seats::{Seat, SeatBlocks, note_rows, seats_of};
