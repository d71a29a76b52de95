// Facts, each a row of a table.

ghost use Rattle.sqlite.specs.Order.{Row as Values};
ghost use Rattle.plan_tables_schema.specs.Rows.{AreOfKinds, IsAlone, with_cells, without_key};
ghost use Rattle.plan_tables_schema.specs.Accepted.{LosesKey, AcceptsRow};
ghost use Rattle.plan_tables_content.specs.Facts.{row_values, current_values, deletion_values, pair_values, link_values};
ghost use Rattle.plan_tables_content.specs.Facts.{row_key, current_key, deletion_key, link_key};
ghost use Rattle.plan_tables_writing.specs.Accepted.{WritesAccepted};

use crate::cells::{limit, number, origin};
use external_dependencies::{Link, Pair};
use occurrences::{CurrentRow, Deletion, Row};
use plan_tables_schema::{Table, delete, insert};
use sqlite::types::ValueRef;
use sqlite::{Alter, Error, Transaction};

/// What can be encoded in one row of a table.
pub(crate) trait Fact {
    // the values of its row
    ghost values: { Self → Values };

    // the key by which its row is found
    ghost key: { Self → Values };

    /// Inserts its row into the table.
    fn put<S: Alter>(&self, tx: &mut Transaction<'_, S>, table: Table) -> Result<(), Error>
        ensures { WritesAccepted (λ _. AreOfKinds table (values self.now))
            (AcceptsRow table (values self.now)) S.Store tx.old tx.new result
            (with_cells table (values self.now)) };

    /// Deletes its row from the table.
    fn delete<S: Alter>(&self, tx: &mut Transaction<'_, S>, table: Table) -> Result<(), Error>
        ensures { WritesAccepted (IsAlone table (key self.now)) (LosesKey table (key self.now))
            S.Store tx.old tx.new result
            (without_key table (key self.now)) };
}

impl Fact for Row {
    ghost values = { row_values };

    ghost key = { row_key };

    fn put<S: Alter>(&self, tx: &mut Transaction<'_, S>, table: Table) -> Result<(), Error> {
        insert(
            tx,
            table,
            &[
                number(self.serial.get()),
                ValueRef::Text(self.key.app.as_bytes()),
                number(self.key.ia.number()),
                number(self.deadline.number()),
                origin(&self.origin),
            ],
        )
    }

    fn delete<S: Alter>(&self, tx: &mut Transaction<'_, S>, table: Table) -> Result<(), Error> {
        delete(tx, table, &[number(self.serial.get())])
    }
}

impl Fact for Pair {
    ghost values = { pair_values };

    ghost key = { pair_values };

    fn put<S: Alter>(&self, tx: &mut Transaction<'_, S>, table: Table) -> Result<(), Error> {
        insert(
            tx,
            table,
            &[number(self.successor.get()), number(self.predecessor.get())],
        )
    }

    fn delete<S: Alter>(&self, tx: &mut Transaction<'_, S>, table: Table) -> Result<(), Error> {
        delete(
            tx,
            table,
            &[number(self.successor.get()), number(self.predecessor.get())],
        )
    }
}

impl Fact for CurrentRow {
    ghost values = { current_values };

    ghost key = { current_key };

    fn put<S: Alter>(&self, tx: &mut Transaction<'_, S>, table: Table) -> Result<(), Error> {
        insert(
            tx,
            table,
            &[
                number(self.row.serial.get()),
                ValueRef::Text(self.row.key.app.as_bytes()),
                number(self.row.key.ia.number()),
                number(self.row.deadline.number()),
                origin(&self.row.origin),
                ValueRef::Text(&[self.status.letter()]),
            ],
        )
    }

    fn delete<S: Alter>(&self, tx: &mut Transaction<'_, S>, table: Table) -> Result<(), Error> {
        delete(tx, table, &[number(self.row.serial.get())])
    }
}

impl Fact for Deletion {
    ghost values = { deletion_values };

    ghost key = { deletion_key };

    fn put<S: Alter>(&self, tx: &mut Transaction<'_, S>, table: Table) -> Result<(), Error> {
        insert(
            tx,
            table,
            &[
                number(self.row.serial.get()),
                ValueRef::Text(self.row.key.app.as_bytes()),
                number(self.row.key.ia.number()),
                number(self.row.deadline.number()),
                origin(&self.row.origin),
                ValueRef::Text(&[self.reason.letter()]),
            ],
        )
    }

    fn delete<S: Alter>(&self, tx: &mut Transaction<'_, S>, table: Table) -> Result<(), Error> {
        delete(tx, table, &[number(self.row.serial.get())])
    }
}

impl Fact for Link {
    ghost values = { link_values };

    ghost key = { link_key };

    fn put<S: Alter>(&self, tx: &mut Transaction<'_, S>, table: Table) -> Result<(), Error> {
        insert(
            tx,
            table,
            &[
                ValueRef::Text(self.app.as_bytes()),
                ValueRef::Text(self.predecessor.as_bytes()),
                limit(self.within),
            ],
        )
    }

    fn delete<S: Alter>(&self, tx: &mut Transaction<'_, S>, table: Table) -> Result<(), Error> {
        delete(
            tx,
            table,
            &[
                ValueRef::Text(self.app.as_bytes()),
                ValueRef::Text(self.predecessor.as_bytes()),
            ],
        )
    }
}
