ghost use Rattle.std.specs.Prelude.{◌≡◌};
ghost use Rattle.std.specs.FinMap.{IsAntisymmetric};
ghost use Rattle.std.specs.declared.cmp.Ordering.TheVariants.{Less};

use crate::keyed::Keyed;
use occurrences::Serial;

/// An item of a list that is kept in blocks, of which each has the items of one group.
pub trait Grouped: Keyed {
    /// By what the blocks are ordered. Only equal groups compare as equal.
    type Group: Ord + Copy;

    // the group of an item
    ghost group_of: { Self → Self.Group };

    /// Its group.
    fn group(&self) -> Self::Group
        ensures { result ≡ group_of self.now };

    // only equal groups compare as equal
    ghost group_ties: { IsAntisymmetric Self.Group.cmp };

    // groups rise with the keys
    ghost rises: { (x y : Self) → Self.Group.cmp (Self.group_of x) (Self.group_of y) ≡ Less
        → Self.Key.cmp (Self.key_of x) (Self.key_of y) ≡ Less };
}

ghost use Rattle.plan_store_lists.specs.Groups.{serial_group};

// The block of a serial.
pub(crate) fn group_of_serial(serial: Serial) -> u32
    ensures { result ≡ serial_group serial }
{
    serial.get() / 256
}
