ghost use Rattle.std.specs.Prelude.{◌≡◌, ◌≢◌, ℕ, ◌≤◌, ◌↔◌, IsTrue, IfSome, IfNone, slice_index};
ghost use Rattle.std.specs.Fmt.{decimal};
ghost use Rattle.planner_cli_stream.specs.JobNumber.{IsJobNumber};

use std::marker::Model;

/// The number of a job, 1 to 999999999.
#[derive(Clone, Copy, Debug, PartialEq, Eq, PartialOrd, Ord, Hash)]
pub struct JobNumber {
    number: u32,
}

impl Model for JobNumber {
    ghost Value = { ℕ };

    ghost view = { λ j. j.number };

    ghost invariant = { λ j. IsJobNumber j.number };

    ghost inverse = { λ n. record { number = n } };
}

impl JobNumber {
    /// The number that the text spells in decimal digits, without a leading zero.
    pub fn from_text(text: &str) -> Option<JobNumber>
        ensures some { IfSome result (λ job. text.now ≡ decimal job) }
        ensures range { IfSome result IsJobNumber }
        ensures none { IfNone result ((n : ℕ) → IsJobNumber n → text.now ≢ decimal n) }
    {
        if !has_first_digit(text) {
            return None;
        }
        let number = text.parse::<u32>().ok()?;
        if number > 999_999_999 {
            return None;
        }
        Some(JobNumber { number })
    }

    /// The number.
    pub fn number(self) -> u32
        ensures value { result ≡ self }
        ensures range { IsJobNumber result }
    {
        self.number
    }
}

// The first byte is a digit other than 0.
fn has_first_digit(text: &str) -> bool
    ensures { IsTrue result ↔ ((49 ≤ slice_index text.now 0) × (slice_index text.now 0 ≤ 57)) }
{
    matches!(text.as_bytes().first(), Some(b'1'..=b'9'))
}
