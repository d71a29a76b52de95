ghost use Rattle.std.specs.Prelude.{◌≡◌, ◌↔◌, IsSome, IfSome};
ghost use Rattle.run_cycles.specs.Offset.{IsOffsets};

use std::alloc::AllocError;
use std::marker::Model;

/// The greatest distance of an offset from 0.
pub const MAX_OFFSET: u16 = 1999;

/// The greatest number of offsets of a run cycle.
pub const MAX_OFFSETS: usize = 64;

/// The offsets of a run cycle, 1 to `MAX_OFFSETS` of them, each from 1 to `MAX_OFFSET` or from -1 to `-MAX_OFFSET`.
/// Offset 1 is the first day of an interval, -1 its last. Contracts see the list.
#[derive(Debug, Drop)]
pub struct Offsets {
    items: Vec<i16>,
}

impl Model for Offsets {
    ghost use Rattle.std.specs.Prelude.{List, ℤ};

    ghost Value = { List ℤ };

    ghost use Rattle.run_cycles.specs.Offset.{IsOffsets};

    ghost view = { λ o. o.items.items };

    ghost invariant = { λ o. IsOffsets o.items.items };
}

impl Offsets {
    /// The offsets in this vector, if it has 1 to `MAX_OFFSETS` and each is one.
    pub fn from_vec(items: Vec<i16>) -> Option<Offsets>
        ensures valid { IsSome result ↔ IsOffsets items.items }
        ensures value { IfSome result (λ o. o ≡ items.items) }
    {
        if items.is_empty() || items.len() > MAX_OFFSETS {
            return None;
        }
        if items
            .iter()
            .all(|k| *k != 0 && k.unsigned_abs() <= MAX_OFFSET)
        {
            Some(Offsets { items })
        } else {
            None
        }
    }

    /// The vector of the offsets.
    pub fn into_vec(self) -> Vec<i16>
        ensures value { result.items ≡ self }
        ensures valid { IsOffsets result.items }
    {
        self.items
    }

    /// The offsets, in their order.
    pub fn as_slice(&self) -> &[i16]
        ensures value { result.now ≡ self.now }
        ensures valid { IsOffsets result.now }
    {
        &self.items
    }
}

impl Clone for Offsets {
    ghost is_clone = { λ old new. new ≡ old };

    fn clone(&self) -> Result<Offsets, AllocError> {
        Ok(Offsets {
            items: self.items.clone()?,
        })
    }
}
