// The rows of the tables of definitions.

ghost use Rattle.std.specs.Prelude.{◌≡◌, false, is_ok, Contains, IfOk, IfSome};
ghost use Rattle.sqlite.specs.State.{HasCleanDisk};
ghost use Rattle.sqlite.specs.Held.{state};
ghost use Rattle.plan_tables_schema.specs.Rows.{Tables, tables_of};
ghost use Rattle.plan_tables_loading.specs.Reading.{HasPlan, Looks};
ghost use Rattle.plan_tables_loading.specs.Tables.{ShowsOnly};
ghost use Rattle.plan_tables_schema.specs.Schema.{table_of};

use crate::table_places::table_at;
use plan_tables_loading::TablePart;
use plan_tables_schema::select;
use sqlite::{Alter, Connection, Error, Row as Cells};
use std::alloc::Global;

/// The rows of the table at the place, as they are shown.
#[derive(Drop)]
pub(crate) struct Shown<const PLACE: usize> {
    /// The rows.
    pub rows: Vec<Cells>,
}

impl<const PLACE: usize> TablePart for Shown<PLACE> {
    ghost tells = { λ all part. ShowsOnly all (table_of PLACE) (λ v. Contains part.rows.items v) };

    ghost in_order = { λ _. Unit {0} };

    ghost readable = { λ _. Unit {0} };

    #[tactic(auto, unfolding(plan_tables_loading::specs::Reading::HasPlan))]
    fn read<S: Alter>(_: Global, conn: &mut Connection<S>) -> Result<Option<Shown<PLACE>>, Error> {
        let rows = select(conn, table_at(PLACE))?;
        Ok(Some(Shown { rows }))
    }
}
