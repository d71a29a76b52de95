ghost use Rattle.std.specs.Prelude.{◌≡◌};

use crate::grouped::Grouped;
use crate::keyed::Keyed;
use external_dependencies::Arrival;
use occurrences::{CurrentRow, Deletion, Row};
use work_calendars::App;

/// An item of a set of the plans: an occurrence, alone or with its status or the reason of its deletion. The list of a
/// set is ordered by application, input arrival and serial; in blocks, each application has one.
pub trait PlanRow: Grouped<Group = App> {
    ghost use Rattle.external_dependencies.specs.Arrival.{arrival_cmp};
    ghost use Rattle.external_dependencies.specs.Nearest.{arrival_of};
    ghost use Rattle.occurrences.specs.declared.row.Row.{Row};

    // the occurrence
    ghost row_of: { Self → Row };

    /// The occurrence.
    fn row(&self) -> Row
        ensures { result ≡ row_of self.now };

    // keys compare as arrivals do
    ghost ordered: { (x y : Self) → Self.Key.cmp (Self.key_of x) (Self.key_of y)
        ≡ arrival_cmp (arrival_of (row_of x)) (arrival_of (row_of y)) };

    // its group is its application
    ghost grouped: { (x : Self) → Self.group_of x ≡ (row_of x).key.app };
}

// The key of a row in the list of a set.
pub(crate) fn arrival(row: &Row) -> Arrival
    ensures { result ≡ arrival_of row.now }
{
    Arrival {
        app: row.key.app,
        ia: row.key.ia,
        serial: row.serial,
    }
}

ghost use Rattle.external_dependencies.specs.Nearest.{arrival_of};

impl Keyed for Row {
    ghost use Rattle.external_dependencies.proofs.NearestLemmas.{arrival_ties};

    type Key = Arrival;

    ghost key_of = { arrival_of };

    ghost ties = { arrival_ties };

    fn key(&self) -> Arrival {
        arrival(self)
    }
}

impl Grouped for Row {
    ghost use Rattle.external_dependencies.proofs.OrderLemmas.{name_ties};
    ghost use Rattle.plan_store_lists.specs.RowBlocks.{apps_rise};

    type Group = App;

    ghost group_of = { λ row. row.key.app };

    ghost group_ties = { name_ties };

    ghost rises = { apps_rise };

    fn group(&self) -> App {
        self.key.app
    }
}

impl PlanRow for Row {
    ghost use Rattle.std.specs.Prelude.{refl};

    ghost row_of = { λ row. row };

    ghost ordered = { λ _ _. refl };

    ghost grouped = { λ _. refl };

    fn row(&self) -> Row {
        *self
    }
}

impl Keyed for CurrentRow {
    ghost use Rattle.external_dependencies.proofs.NearestLemmas.{arrival_ties};

    type Key = Arrival;

    ghost key_of = { λ current. arrival_of current.row };

    ghost ties = { arrival_ties };

    fn key(&self) -> Arrival {
        arrival(&self.row)
    }
}

impl Grouped for CurrentRow {
    ghost use Rattle.external_dependencies.proofs.OrderLemmas.{name_ties};
    ghost use Rattle.plan_store_lists.specs.RowBlocks.{apps_rise};

    type Group = App;

    ghost group_of = { λ current. current.row.key.app };

    ghost group_ties = { name_ties };

    ghost rises = { λ x y. apps_rise x.row y.row };

    fn group(&self) -> App {
        self.row.key.app
    }
}

impl PlanRow for CurrentRow {
    ghost use Rattle.std.specs.Prelude.{refl};

    ghost row_of = { λ current. current.row };

    ghost ordered = { λ _ _. refl };

    ghost grouped = { λ _. refl };

    fn row(&self) -> Row {
        self.row
    }
}

impl Keyed for Deletion {
    ghost use Rattle.external_dependencies.proofs.NearestLemmas.{arrival_ties};

    type Key = Arrival;

    ghost key_of = { λ deletion. arrival_of deletion.row };

    ghost ties = { arrival_ties };

    fn key(&self) -> Arrival {
        arrival(&self.row)
    }
}

impl Grouped for Deletion {
    ghost use Rattle.external_dependencies.proofs.OrderLemmas.{name_ties};
    ghost use Rattle.plan_store_lists.specs.RowBlocks.{apps_rise};

    type Group = App;

    ghost group_of = { λ deletion. deletion.row.key.app };

    ghost group_ties = { name_ties };

    ghost rises = { λ x y. apps_rise x.row y.row };

    fn group(&self) -> App {
        self.row.key.app
    }
}

impl PlanRow for Deletion {
    ghost use Rattle.std.specs.Prelude.{refl};

    ghost row_of = { λ deletion. deletion.row };

    ghost ordered = { λ _ _. refl };

    ghost grouped = { λ _. refl };

    fn row(&self) -> Row {
        self.row
    }
}
