ghost use Rattle.std.specs.Prelude.{◌≡◌};

use occurrences::{Refusal, Reply};
use std::marker::Model;

/// The reply to a statement.
pub type Answer = Result<Reply, Refusal>;

/// The text of a job: the words of its statement, and for `define` the bytes of its block.
/// Contracts see its bytes.
#[derive(Drop)]
pub struct JobText {
    bytes: Vec<u8>,
}

impl Model for JobText {
    ghost use Rattle.std.specs.Prelude.{ℕ, List};

    ghost Value = { List ℕ };

    ghost view = { λ t. t.bytes.items };
}

impl JobText {
    /// These bytes.
    pub fn from_vec(bytes: Vec<u8>) -> JobText
        ensures { result ≡ bytes.items }
    {
        JobText { bytes }
    }

    /// The bytes.
    pub fn as_slice(&self) -> &[u8]
        ensures { result.now ≡ self.now }
    {
        self.bytes.as_slice()
    }

    /// The bytes.
    pub fn into_vec(self) -> Vec<u8>
        ensures { result.items ≡ self }
    {
        let JobText { bytes } = self;
        bytes
    }
}

/// A kept job: a job with the reply that it got.
#[derive(Drop)]
pub struct Job {
    /// Its number.
    pub number: u64,
    /// Its text.
    pub text: JobText,
    /// Its reply, which a repeated job gets again.
    pub reply: Answer,
}
