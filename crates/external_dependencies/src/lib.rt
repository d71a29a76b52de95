//! The nearest predecessors of occurrences, the pairs that they make, and loops in predecessor lists.
//!
//! [`Links`] are the lists of predecessors in force, and [`Rows`] the occurrences. [`find_loop`] checks the lists for
//! a loop, and [`resolve_all`] gives the [`Pairs`] of each open occurrence with its [`nearest`] predecessors:
//!
//! ```text
//! // A follows B, and both arrive at 08.00 on two days
//! let link = Link {
//!     app: a,
//!     predecessor: b,
//!     within: None,
//! };
//! let links = Links::from_vec(vec![in alloc; link]?);
//! let pairs = resolve_all(alloc, &rows, &links)?;
//! // of the second day's A the nearest B is that of the same day
//! let found = pairs.of_successor(fourth).first();
//! assert_eq!(rt; found.map(|pair| pair.predecessor), Some(third));
//! ```
//!
//! After a change that a [`Touch`] names, [`resolve_touched`] finds anew only the pairs that it may reach, and gives the
//! [`PairChange`] that leads from the pairs before it to those after it.
#![tactic(auto)]

mod change;
mod components;
mod falling;
mod followers;
mod graph;
mod laws;
mod links;
mod live;
mod loops;
mod pairs;
mod reach;
mod repair;
mod rising;
mod rows;
mod touch;

pub use change::PairChange;
pub use followers::{Follower, Followers};
pub use laws::{
    arrival_order, link_order, nearest_arrives_last, nearest_is_unique, pair_order,
    pairs_depend_on_set, pairs_have_no_loop, rising_is_unique,
};
pub use links::{Link, Links};
pub use live::{Arrival, Live, arrives_within, nearest};
pub use loops::{find_loop, find_loop_through};
pub use pairs::{Pair, Pairs, resolve_all, resolve_some};
pub use repair::resolve_touched;
pub use rows::{PlacedRow, Rows};
pub use touch::Touch;
