ghost use Rattle.std.specs.Prelude.{◌≡◌, ◌↔◌, ◌++◌, ◌∷◌, IsTrue, OnErr, OnOk, [], length};

use std::alloc::AllocError;
use std::marker::Model;
use work_calendars::Day;

/// The origins of a period that lists its intervals, each with the last day of its interval or none. Contracts see
/// the list.
#[derive(Debug, Drop)]
pub struct Origins {
    entries: Vec<(Day, Option<Day>)>,
}

impl Model for Origins {
    ghost use Rattle.std.specs.Prelude.{ℕ, List, Option};

    ghost Value = { List (ℕ × Option ℕ) };

    ghost view = { λ o. o.entries.items };
}

impl Origins {
    /// These origins, in this order, taken as they are.
    pub fn new(entries: Vec<(Day, Option<Day>)>) -> Origins
        ensures { result ≡ entries.items }
    {
        Origins { entries }
    }

    /// The origins as a vector.
    pub fn into_vec(self) -> Vec<(Day, Option<Day>)>
        ensures { result.items ≡ self }
    {
        self.entries
    }

    /// Appends an origin, with the last day of its interval or none.
    pub fn push(&mut self, entry: (Day, Option<Day>)) -> Result<(), AllocError>
        ensures ok { OnOk result (self.new ≡ self.old ++ entry ∷ []) }
        ensures err { OnErr result (self.new ≡ self.old) }
    {
        self.entries.push(entry)?;
        Ok(())
    }

    /// The origins in their order.
    pub fn as_slice(&self) -> &[(Day, Option<Day>)]
        ensures { result.now ≡ self.now }
    {
        self.entries.as_slice()
    }

    /// How many origins there are.
    pub fn len(&self) -> usize
        ensures { result ≡ length self.now }
    {
        self.entries.len()
    }

    /// Whether there is no origin.
    pub fn is_empty(&self) -> bool
        ensures { IsTrue result ↔ (self.now ≡ []) }
    {
        self.entries.is_empty()
    }
}

impl Clone for Origins {
    ghost is_clone = { λ old new. new ≡ old };

    fn clone(&self) -> Result<Origins, AllocError> {
        Ok(Origins {
            entries: self.entries.clone()?,
        })
    }
}
