// Laws of this crate's definitions: each function has no body, and its contract is the law.
ghost use Rattle.std.specs.Prelude.{◌≡◌, ◌≢◌, ◌↔◌, ◌⊎◌, List, IsTrue, true};
ghost use Rattle.std.specs.Cmp.{IsTotalOrder};
ghost use Rattle.std.specs.Ordering.{MatchOrdering};
ghost use Rattle.occurrences.specs.Key.{KeyBefore, key_cmp, key_eq};
ghost use Rattle.occurrences.specs.Order.{IsStrictOrder, Ranks};
ghost use Rattle.occurrences.specs.Row.{RowBefore, row_cmp};
ghost use Rattle.occurrences.specs.Place.{IsLive, IsOpen, IsComplete};
ghost use Rattle.occurrences.specs.Status.{changed_status, status_after};

use crate::key::Key;
use crate::place::Place;
use crate::row::Row;
use crate::status::{Action, Status};

/// Law: keys are ordered by input arrival, then by application in byte order. That is a strict order, keys compare by
/// it, and compare and test as equal only with themselves.
pub fn key_order()
    ensures strict { IsStrictOrder KeyBefore }
    ensures total { IsTotalOrder key_cmp }
    ensures ranks { Ranks key_cmp KeyBefore }
    ensures compared { (a b : Key) → ⟦<Key as Ord>⟧.cmp a b ≡ key_cmp a b }
    ensures equal { (a b : Key) → (⟦<Key as PartialEq>⟧.eq a b ≡ true) ↔ (a ≡ b) }
    ensures tested { (a b : Key) → IsTrue (key_eq a b) ↔ (a ≡ b) }
{}

/// Law: rows are ordered by key, then by serial. That is a strict order, rows of two serials compare by it, and rows
/// compare and test as equal only with themselves.
pub fn row_order()
    ensures strict { IsStrictOrder RowBefore }
    ensures total { IsTotalOrder row_cmp }
    ensures ranks { (a b : Row) → a.serial ≢ b.serial →
        MatchOrdering (row_cmp a b) (RowBefore a b) ⊥ (RowBefore b a) }
    ensures compared { (a b : Row) → ⟦<Row as Ord>⟧.cmp a b ≡ row_cmp a b }
    ensures equal { (a b : Row) → (⟦<Row as PartialEq>⟧.eq a b ≡ true) ↔ (a ≡ b) }
{}

/// Law: the ways into each status. S is entered by a start of W alone, E by a failure of S, C by a completion of S or
/// E,
/// W by a reset of E, and D by a deletion of W or E. So what is complete or deleted stays so, whatever is tried.
pub fn status_changes()
    ensures into_w { (s : Status) (a : Action) →
        (changed_status s a ≡ Some Status.W) ↔ ((s ≡ Status.E) × (a ≡ Action.Reset)) }
    ensures into_s { (s : Status) (a : Action) →
        (changed_status s a ≡ Some Status.S) ↔ ((s ≡ Status.W) × (a ≡ Action.Start)) }
    ensures into_e { (s : Status) (a : Action) →
        (changed_status s a ≡ Some Status.E) ↔ ((s ≡ Status.S) × (a ≡ Action.Fail)) }
    ensures into_c { (s : Status) (a : Action) →
        (changed_status s a ≡ Some Status.C)
        ↔ (((s ≡ Status.S) ⊎ (s ≡ Status.E)) × (a ≡ Action.Complete)) }
    ensures into_d { (s : Status) (a : Action) →
        (changed_status s a ≡ Some Status.D)
        ↔ (((s ≡ Status.W) ⊎ (s ≡ Status.E)) × (a ≡ Action.Delete)) }
    ensures stays_complete { (tried : List Action) → status_after Status.C tried ≡ Status.C }
    ensures stays_deleted { (tried : List Action) → status_after Status.D tried ≡ Status.D }
{}

/// Law: what is open or complete is live, and nothing is both. What is live and neither is in the current plan,
/// started or ended in error.
pub fn places()
    ensures open_is_live { (p : Place) → IsOpen p → IsLive p }
    ensures complete_is_live { (p : Place) → IsComplete p → IsLive p }
    ensures not_both { (p : Place) → IsOpen p → IsComplete p → ⊥ }
    ensures between { (p : Place) → IsLive p → (IsOpen p → ⊥) → (IsComplete p → ⊥) →
        (p ≡ Place.Current Status.S) ⊎ (p ≡ Place.Current Status.E) }
{}
