// Bytes, places and values, and lists of what can be compared.

ghost use Rattle.std.specs.Prelude.{◌≡◌, ◌↔◌, IsTrue};

use sqlite_items::Items;
use sqlite_schema::code::lend_value;
use sqlite_value::keys::Order;
use sqlite_value::order;
use sqlite_value::value::{Bytes, Value};

/// What can be compared.
pub(crate) trait Same {
    /// Whether this is the same as the other.
    fn is_same(&self, other: &Self) -> bool
        ensures { IsTrue result ↔ (self.now ≡ other.now) };
}

/// Whether these are the same as the others, one by one.
pub(crate) fn are_same<T: Same>(xs: &[T], ys: &[T]) -> bool
    ensures { IsTrue result ↔ (xs.now ≡ ys.now) }
{
    if xs.len() != ys.len() {
        return false;
    }
    for (i, x) in xs.iter().enumerate() {
        if !x.is_same(&ys[i]) {
            return false;
        }
    }
    true
}

impl Same for Bytes {
    fn is_same(&self, other: &Bytes) -> bool {
        self.as_slice() == other.as_slice()
    }
}

impl Same for Items<usize> {
    fn is_same(&self, other: &Items<usize>) -> bool {
        self.as_slice() == other.as_slice()
    }
}

impl Same for Order {
    fn is_same(&self, other: &Order) -> bool {
        *self == *other
    }
}

impl Same for Value {
    fn is_same(&self, other: &Value) -> bool {
        order::is_same(lend_value(self), lend_value(other))
    }
}
