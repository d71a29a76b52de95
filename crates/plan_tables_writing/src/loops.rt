// Statements for one item after another, as the rows of many facts.

ghost use Rattle.plan_tables_schema.specs.Rows.{AreOfKinds, IsAlone, Tables, with_cells, without_key};
ghost use Rattle.plan_tables_schema.specs.Accepted.{LosesKey, AcceptsRow};
ghost use Rattle.plan_tables_writing.specs.InTurn.{HoldsInTurn, made_in_turn};
ghost use Rattle.plan_tables_writing.specs.Accepted.{AreKeysOf, AcceptsEach, WritesAccepted};
ghost use Rattle.plan_tables_writing.specs.Writing.{AreStorable, StandAlone, with_each, without_each};

use crate::facts::Fact;
use plan_tables_schema::Table;
use sqlite::{Alter, Error, Transaction};

/// What is written for each of many items.
pub(crate) trait ForEach<X> {
    // the tables fit it
    ghost fits: { Self → X → Tables → Type 0 };

    // the tables accept it
    ghost accepts: { Self → X → Tables → Type 0 };

    // what it makes of the tables
    ghost makes: { Self → X → Tables → Tables };

    /// Writes it for the item.
    fn write<S: Alter>(&self, tx: &mut Transaction<'_, S>, item: &X) -> Result<(), Error>
        ensures { WritesAccepted (fits self.now item.now) (accepts self.now item.now) S.Store tx.old
            tx.new result
            (makes self.now item.now) };
}

/// Writes it for each of these.
pub(crate) fn write_each<X, W: ForEach<X>, S: Alter>(
    tx: &mut Transaction<'_, S>,
    what: &W,
    items: &[X],
) -> Result<(), Error>
    ensures { WritesAccepted (HoldsInTurn (W.fits what.now) (W.makes what.now) items.now)
        (HoldsInTurn (W.accepts what.now) (W.makes what.now) items.now) S.Store tx.old tx.new result
        (made_in_turn (W.makes what.now) items.now) }
{
    for item in items {
        what.write(tx, item)?;
    }
    Ok(())
}

// Inserts a row for the item into the table.
#[derive(Drop)]
struct PutFact {
    table: Table,
}

impl<R: Fact> ForEach<R> for PutFact {
    ghost fits = { λ it fact _. AreOfKinds it.table (R.values fact) };

    ghost accepts = { λ it fact. AcceptsRow it.table (R.values fact) };

    ghost makes = { λ it fact. with_cells it.table (R.values fact) };

    fn write<S: Alter>(&self, tx: &mut Transaction<'_, S>, item: &R) -> Result<(), Error> {
        item.put(tx, self.table)
    }
}

// Deletes the row of the item from the table.
#[derive(Drop)]
struct DeleteFact {
    table: Table,
}

impl<R: Fact> ForEach<R> for DeleteFact {
    ghost fits = { λ it fact. IsAlone it.table (R.key fact) };

    ghost accepts = { λ it fact. LosesKey it.table (R.key fact) };

    ghost makes = { λ it fact. without_key it.table (R.key fact) };

    fn write<S: Alter>(&self, tx: &mut Transaction<'_, S>, item: &R) -> Result<(), Error> {
        item.delete(tx, self.table)
    }
}

/// Inserts a row for each of these into the table.
pub(crate) fn put_each<R: Fact, S: Alter>(
    tx: &mut Transaction<'_, S>,
    table: Table,
    facts: &[R],
) -> Result<(), Error>
    ensures { WritesAccepted (λ _. AreStorable table R.values) (AcceptsEach table R.values facts.now)
        S.Store tx.old tx.new result
        (with_each table R.values facts.now) }
{
    write_each(tx, &PutFact { table }, facts)
}

/// Deletes the row of each of these from the table.
pub(crate) fn delete_each<R: Fact, S: Alter>(
    tx: &mut Transaction<'_, S>,
    table: Table,
    facts: &[R],
) -> Result<(), Error>
    ensures { WritesAccepted (λ _. StandAlone table) (λ _. AreKeysOf table R.key × StandAlone table)
        S.Store tx.old tx.new result
        (without_each table R.key facts.now) }
{
    write_each(tx, &DeleteFact { table }, facts)
}
