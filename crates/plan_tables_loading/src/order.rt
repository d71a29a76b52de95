// Items in the order of their numbers.

ghost use Rattle.std.specs.Prelude.{◌≡◌, ◌≢◌, ◌↔◌, ℕ, ◌<◌, None, IfSome, IsTrue};
ghost use Rattle.std.specs.List.{AllPairs};
ghost use Rattle.std.specs.List.Sorted.{IsNonDecreasingBy, IsPermutation};
ghost use Rattle.sqlite.specs.declared.types.Value.TheVariants.{Int};
ghost use Rattle.plan_tables_loading.specs.Order.{NumbersRise};
ghost use Rattle.plan_tables_loading.specs.Rowids.{place_of};

use occurrences::{CurrentRow, Deletion, Row};
use planner_machine::Job;

/// What has a number.
pub(crate) trait Numbered {
    // its number
    ghost number_of: { Self → ℕ };

    /// Its number.
    fn number(&self) -> u64
        ensures { result ≡ number_of self.now };
}

impl Numbered for Row {
    ghost number_of = { λ row. row.serial };

    fn number(&self) -> u64 {
        u64::from(self.serial.get())
    }
}

impl Numbered for CurrentRow {
    ghost number_of = { λ current. current.row.serial };

    fn number(&self) -> u64 {
        u64::from(self.row.serial.get())
    }
}

impl Numbered for Deletion {
    ghost number_of = { λ deletion. deletion.row.serial };

    fn number(&self) -> u64 {
        u64::from(self.row.serial.get())
    }
}

impl Numbered for Job {
    ghost number_of = { λ job. job.number };

    fn number(&self) -> u64 {
        self.number
    }
}

/// The place of the integer in the order 0, -1, 1, -2 and so on.
pub fn place_of(n: i64) -> u64
    ensures { result ≡ place_of (Int n) }
{
    if n < 0 {
        (n.unsigned_abs() - 1) * 2 + 1
    } else {
        n.unsigned_abs() * 2
    }
}

/// Puts the items in the order of their numbers.
pub(crate) fn sort_by_number<X: Numbered>(xs: &mut Vec<X>)
    ensures same { IsPermutation xs.old.items xs.new.items }
    ensures sorted { IsNonDecreasingBy X.number_of xs.new.items }
{
    xs.sort_unstable_by_key(|x| x.number());
}

/// Whether each has a number above all before it.
pub(crate) fn numbers_rise<X: Numbered>(xs: &[X]) -> bool
    ensures { IsTrue result ↔ AllPairs (λ x y. X.number_of x < X.number_of y) xs.now }
{
    for at in 1..xs.len() {
        let last = xs[at - 1].number();
        let number = xs[at].number();
        if number <= last {
            return false;
        }
    }
    true
}

/// The items in the order of their numbers, if no two have the same.
pub(crate) fn in_order<X: Numbered + Drop>(xs: Vec<X>) -> Option<Vec<X>>
    ensures same { IfSome result (λ sorted. IsPermutation xs.items sorted.items) }
    ensures order { IfSome result (λ sorted. NumbersRise X.number_of sorted.items) }
    ensures refused { result ≡ None → AllPairs (λ x y. X.number_of x ≢ X.number_of y) xs.items → ⊥ }
{
    let mut xs = xs;
    sort_by_number(&mut xs);
    if numbers_rise(&xs) { Some(xs) } else { None }
}
