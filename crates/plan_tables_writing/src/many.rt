// Facts of the tables that get many, whose rows are inserted several at a time.

ghost use Rattle.std.specs.Prelude.{◌<◌};
ghost use Rattle.plan_tables_writing.specs.Accepted.{AcceptsEach, WritesAccepted};
ghost use Rattle.plan_tables_writing.specs.Writing.{AreStorable, with_each};

use crate::cells::{number, origin};
use crate::facts::Fact;
use crate::loops::put_each;
use external_dependencies::Pair;
use occurrences::{CurrentRow, Deletion, Row};
use plan_tables_schema::{Table, insert_several};
use sqlite::types::ValueRef;
use sqlite::{Alter, Error, Transaction};

/// A fact of a table that gets many.
pub(crate) trait ManyFact: Fact {
    /// How many rows one statement inserts.
    fn at_once() -> usize
        ensures { 0 < result };

    /// Inserts a row for each of these into the table: by one statement, if it inserts as many.
    fn put_several<S: Alter>(
        tx: &mut Transaction<'_, S>,
        table: Table,
        facts: &[Self],
    ) -> Result<(), Error>
        ensures { WritesAccepted (λ _. AreStorable table Self.values)
            (AcceptsEach table Self.values facts.now) S.Store tx.old tx.new result
            (with_each table Self.values facts.now) };
}

impl ManyFact for Row {
    fn at_once() -> usize {
        3
    }

    fn put_several<S: Alter>(
        tx: &mut Transaction<'_, S>,
        table: Table,
        facts: &[Self],
    ) -> Result<(), Error> {
        match facts {
            [a, b, c] => {
                let values = [
                    number(a.serial.get()),
                    ValueRef::Text(a.key.app.as_bytes()),
                    number(a.key.ia.number()),
                    number(a.deadline.number()),
                    origin(&a.origin),
                    number(b.serial.get()),
                    ValueRef::Text(b.key.app.as_bytes()),
                    number(b.key.ia.number()),
                    number(b.deadline.number()),
                    origin(&b.origin),
                    number(c.serial.get()),
                    ValueRef::Text(c.key.app.as_bytes()),
                    number(c.key.ia.number()),
                    number(c.deadline.number()),
                    origin(&c.origin),
                ];
                match table {
                    Table::LongTerm => insert_several(tx, Table::LongTerm, &values),
                    Table::History => insert_several(tx, Table::History, &values),
                    _ => put_each(tx, table, facts),
                }
            }
            _ => put_each(tx, table, facts),
        }
    }
}

impl ManyFact for CurrentRow {
    fn at_once() -> usize {
        3
    }

    fn put_several<S: Alter>(
        tx: &mut Transaction<'_, S>,
        table: Table,
        facts: &[Self],
    ) -> Result<(), Error> {
        match facts {
            [a, b, c] => {
                let values = [
                    number(a.row.serial.get()),
                    ValueRef::Text(a.row.key.app.as_bytes()),
                    number(a.row.key.ia.number()),
                    number(a.row.deadline.number()),
                    origin(&a.row.origin),
                    ValueRef::Text(&[a.status.letter()]),
                    number(b.row.serial.get()),
                    ValueRef::Text(b.row.key.app.as_bytes()),
                    number(b.row.key.ia.number()),
                    number(b.row.deadline.number()),
                    origin(&b.row.origin),
                    ValueRef::Text(&[b.status.letter()]),
                    number(c.row.serial.get()),
                    ValueRef::Text(c.row.key.app.as_bytes()),
                    number(c.row.key.ia.number()),
                    number(c.row.deadline.number()),
                    origin(&c.row.origin),
                    ValueRef::Text(&[c.status.letter()]),
                ];
                match table {
                    Table::Current => insert_several(tx, Table::Current, &values),
                    _ => put_each(tx, table, facts),
                }
            }
            _ => put_each(tx, table, facts),
        }
    }
}

impl ManyFact for Deletion {
    fn at_once() -> usize {
        3
    }

    fn put_several<S: Alter>(
        tx: &mut Transaction<'_, S>,
        table: Table,
        facts: &[Self],
    ) -> Result<(), Error> {
        match facts {
            [a, b, c] => {
                let values = [
                    number(a.row.serial.get()),
                    ValueRef::Text(a.row.key.app.as_bytes()),
                    number(a.row.key.ia.number()),
                    number(a.row.deadline.number()),
                    origin(&a.row.origin),
                    ValueRef::Text(&[a.reason.letter()]),
                    number(b.row.serial.get()),
                    ValueRef::Text(b.row.key.app.as_bytes()),
                    number(b.row.key.ia.number()),
                    number(b.row.deadline.number()),
                    origin(&b.row.origin),
                    ValueRef::Text(&[b.reason.letter()]),
                    number(c.row.serial.get()),
                    ValueRef::Text(c.row.key.app.as_bytes()),
                    number(c.row.key.ia.number()),
                    number(c.row.deadline.number()),
                    origin(&c.row.origin),
                    ValueRef::Text(&[c.reason.letter()]),
                ];
                match table {
                    Table::Deletion => insert_several(tx, Table::Deletion, &values),
                    _ => put_each(tx, table, facts),
                }
            }
            _ => put_each(tx, table, facts),
        }
    }
}

impl ManyFact for Pair {
    fn at_once() -> usize {
        9
    }

    fn put_several<S: Alter>(
        tx: &mut Transaction<'_, S>,
        table: Table,
        facts: &[Self],
    ) -> Result<(), Error> {
        match facts {
            [a, b, c, d, e, f, g, h, i] => {
                let values = [
                    number(a.successor.get()),
                    number(a.predecessor.get()),
                    number(b.successor.get()),
                    number(b.predecessor.get()),
                    number(c.successor.get()),
                    number(c.predecessor.get()),
                    number(d.successor.get()),
                    number(d.predecessor.get()),
                    number(e.successor.get()),
                    number(e.predecessor.get()),
                    number(f.successor.get()),
                    number(f.predecessor.get()),
                    number(g.successor.get()),
                    number(g.predecessor.get()),
                    number(h.successor.get()),
                    number(h.predecessor.get()),
                    number(i.successor.get()),
                    number(i.predecessor.get()),
                ];
                match table {
                    Table::Dependency => insert_several(tx, Table::Dependency, &values),
                    _ => put_each(tx, table, facts),
                }
            }
            _ => put_each(tx, table, facts),
        }
    }
}

/// Inserts a row for each of these into the table, several by one statement while there are as many.
pub(crate) fn put_many<R: ManyFact, S: Alter>(
    tx: &mut Transaction<'_, S>,
    table: Table,
    facts: &[R],
) -> Result<(), Error>
    ensures { WritesAccepted (λ _. AreStorable table R.values) (AcceptsEach table R.values facts.now)
        S.Store tx.old tx.new result
        (with_each table R.values facts.now) }
{
    let count = R::at_once();
    let mut rest = facts;
    while rest.len() >= count {
        let (few, more) = rest.split_at(count);
        R::put_several(tx, table, few)?;
        rest = more;
    }
    put_each(tx, table, rest)
}
