//! What the tables of a plan stand for: each row encodes one fact, and no two contents have the same rows.
//!
//! ```text
//! // the replies of two jobs, as the table of jobs has them
//! let line = answer_line(alloc, &Ok(Reply::Undefined))?;
//! assert_eq!(rt; line.as_slice(), b"ok undefined".as_slice());
//! let line = answer_line(alloc, &Err(Refusal::NoPlan))?;
//! assert_eq!(rt; line.as_slice(), b"refused 20".as_slice());
//! ```
#![tactic(auto)]

mod answers;

ghost use Rattle.plan_tables_content.specs.Content.{HaveOneContent};
ghost use Rattle.plan_tables_content.specs.DecodedSets.{AllRepresentSets};

pub use answers::{answer_is_small, answer_line};
use external_dependencies::rising_is_unique;

/// Tables have one content at most.
pub fn tables_have_one_content()
    ensures { HaveOneContent }
{
    rising_is_unique();
}

/// The sets that are read back from the rows of tables are those of their content.
pub fn tables_represent_sets()
    ensures { AllRepresentSets }
{}
