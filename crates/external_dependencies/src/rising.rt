ghost use Rattle.std.specs.Prelude.{◌≡◌, ◌↔◌, Contains};
ghost use Rattle.std.specs.declared.cmp.Ordering.TheVariants.{Equal};
ghost use Rattle.std.specs.FinMap.{IsAntisymmetric};
ghost use Rattle.external_dependencies.specs.Rising.{IsRising};

// The items in rising order; of those that compare as equal, one.
pub(crate) fn into_ordered<T: Ord + Copy>(mut items: Vec<T>) -> Vec<T>
    ensures rising { IsRising T.cmp result.items }
    ensures only { (x : T) → Contains result.items x → Contains items.items x }
    ensures all { (x : T) → Contains items.items x → (y : T) × Contains result.items y
        × (T.cmp x y ≡ Equal) }
{
    items.sort_unstable();
    items.dedup();
    items
}

// The items in rising order, each once.
pub(crate) fn into_rising<T: Ord + Copy>(items: Vec<T>) -> Vec<T>
    requires { IsAntisymmetric T.cmp }
    ensures rising { IsRising T.cmp result.items }
    ensures same { (x : T) → Contains result.items x ↔ Contains items.items x }
{
    into_ordered(items)
}
