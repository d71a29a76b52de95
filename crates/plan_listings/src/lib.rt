//! Printed lines, byte for byte: replies, refusals, rows of lists. Each is returned without its line feed.
//!
//! ```text
//! let line = reply_line(alloc, &Reply::Defined { names: 3 })?;
//! assert_eq!(rt; line.as_slice(), b"ok defined 3".as_slice());
//! let line = refusal_line(alloc, &Refusal::FaultyData { record: 2 })?;
//! assert_eq!(rt; line.as_slice(), b"refused 11 2".as_slice());
//! let line = days_line(&named);
//! assert_eq!(rt;
//!     line.as_slice(),
//!     b"2024-01-01 08.00 ALPHA    2024-01-02 06.00".as_slice()
//! );
//! ```
#![tactic(auto)]

mod days;
mod line;
mod links;
mod replies;
mod report;
mod rows;

pub use days::days_line;
pub use links::link_line;
pub use replies::{refusal_line, reply_line};
pub use report::{Signed, dp_report, ltp_report};
pub use rows::{marked_line, pair_line, row_line};
