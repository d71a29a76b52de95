//! How many replies said `ok`, and how many `refused`.
ghost use Rattle.std.specs.Prelude.{◌≡◌, ◌+◌, if◌then◌else◌};
ghost use Rattle.std.specs.Io.Iter.{u64_saturate};

/// How many statements were accepted and refused. Each count stays at `u64::MAX` once there.
#[derive(Clone, Copy, Debug, PartialEq, Eq)]
pub struct Tally {
    /// The replies that begin with `ok`.
    pub accepted: u64,
    /// The replies that begin with `refused`.
    pub refused: u64,
}

impl Tally {
    /// The tally of no reply.
    pub fn new() -> Tally
        ensures accepted { result.accepted ≡ 0 }
        ensures refused { result.refused ≡ 0 }
    {
        Tally {
            accepted: 0,
            refused: 0,
        }
    }

    /// Counts one more reply.
    pub fn count(&mut self, is_accepted: bool)
        ensures accepted { self.new.accepted
            ≡ u64_saturate (self.old.accepted + (if is_accepted then 1 else 0)) }
        ensures refused { self.new.refused
            ≡ u64_saturate (self.old.refused + (if is_accepted then 0 else 1)) }
    {
        let Tally { accepted, refused } = *self;
        *self = if is_accepted {
            Tally {
                accepted: accepted.saturating_add(1),
                refused,
            }
        } else {
            Tally {
                accepted,
                refused: refused.saturating_add(1),
            }
        };
    }
}
