//! The planner as a machine: what it knows, what each statement decides, and laws of both, which are contracts of
//! functions that do nothing.
//!
//! ```text
//! // job 7 was refused, because there is no long-term plan
//! let job = Job {
//!     number: 7,
//!     text: JobText::from_vec(b"dp-replan".to_vec(alloc)?),
//!     reply: Err(Refusal::NoPlan),
//! };
//! assert!(rt; job.number <= GREATEST_JOB);
//! // if the job is sent again with the same text, it gets the reply that is kept
//! assert_eq!(rt; job.text.as_slice(), b"dp-replan".as_slice());
//! assert_eq!(rt; job.reply, Err(Refusal::NoPlan));
//! ```
#![tactic(auto)]

mod content;
mod counts;
mod job;
mod laws;
mod limits;

pub use content::{Bounds, Draft};
pub use counts::Count;
pub use job::{Answer, Job, JobText};
pub use laws::{
    daily_plans, empty_content_is_sound, fate_is_followed, fresh_plans, occurrence_stays_itself,
    one_answer, pairs_have_no_loop, predecessors_are_complete, refusal_changes_nothing, reruns,
    sound_content_stays_sound, streams, trials,
};
pub use limits::{GREATEST_JOB, LONGEST_WINDOW, MOST_PLANNED_ROWS, limits_hold};
