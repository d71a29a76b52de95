//! Each statement of the planner has exactly one answer: laws, which are contracts of functions that do nothing.
//!
//! ```text
//! // a law does nothing: what it says of all statements, contents and streams is its contract
//! exactly_one_answer();
//! kept_content_stays_kept();
//! each_stream_has_one_run();
//! ```
#![tactic(auto)]

mod laws;

pub use laws::{
    each_stream_has_one_run, exactly_one_answer, kept_content_stays_kept,
    sound_content_may_lack_an_answer,
};
