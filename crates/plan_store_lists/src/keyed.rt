ghost use Rattle.std.specs.Prelude.{◌≡◌};
ghost use Rattle.std.specs.FinMap.{IsAntisymmetric};

/// An item of a list that is kept in the order of a key.
pub trait Keyed: Copy {
    /// By what the list is ordered. Only equal keys compare as equal.
    type Key: Ord + Copy;

    // the key of an item
    ghost key_of: { Self → Self.Key };

    /// Its key.
    fn key(&self) -> Self::Key
        ensures { result ≡ key_of self.now };

    // only equal keys compare as equal
    ghost ties: { IsAntisymmetric Self.Key.cmp };
}
