// Steps of a change, one after another.

ghost use Rattle.plan_tables_schema.specs.Rows.{Tables};
ghost use Rattle.plan_tables_writing.specs.Accepted.{AreKeysOf, AcceptsEach, WritesAccepted};
ghost use Rattle.plan_tables_writing.specs.Writing.{AreStorable, StandAlone, with_each, without_each};

use crate::facts::Fact;
use crate::loops::delete_each;
use crate::many::{ManyFact, put_many};
use plan_tables_schema::Table;
use sqlite::{Alter, Error, Transaction};

/// What is written in the tables.
pub(crate) trait Step {
    // the tables fit it
    ghost fits: { Self → Tables → Type 0 };

    // the tables accept it
    ghost accepts: { Self → Tables → Type 0 };

    // what it makes of the tables
    ghost makes: { Self → Tables → Tables };

    /// Writes it.
    fn run<S: Alter>(&self, tx: &mut Transaction<'_, S>) -> Result<(), Error>
        ensures { WritesAccepted (fits self.now) (accepts self.now) S.Store tx.old tx.new result
            (makes self.now) };
}

impl<A: Step, B: Step> Step for (A, B) {
    ghost fits = { λ both all. A.fits both.0 all × B.fits both.1 (A.makes both.0 all) };

    ghost accepts = { λ both all. A.accepts both.0 all × B.accepts both.1 (A.makes both.0 all) };

    ghost makes = { λ both all. B.makes both.1 (A.makes both.0 all) };

    fn run<S: Alter>(&self, tx: &mut Transaction<'_, S>) -> Result<(), Error> {
        self.0.run(tx)?;
        self.1.run(tx)
    }
}

/// A row for each of these, in the table.
#[derive(Drop)]
pub(crate) struct PutEach<'a, R> {
    /// The table.
    pub table: Table,
    /// The facts.
    pub facts: &'a [R],
}

impl<'a, R: ManyFact> Step for PutEach<'a, R> {
    ghost fits = { λ it _. AreStorable it.table R.values };

    ghost accepts = { λ it. AcceptsEach it.table R.values it.facts.now };

    ghost makes = { λ it. with_each it.table R.values it.facts.now };

    fn run<S: Alter>(&self, tx: &mut Transaction<'_, S>) -> Result<(), Error> {
        put_many(tx, self.table, self.facts)
    }
}

/// The rows of these, out of the table.
#[derive(Drop)]
pub(crate) struct DeleteEach<'a, R> {
    /// The table.
    pub table: Table,
    /// The facts.
    pub facts: &'a [R],
}

impl<'a, R: Fact> Step for DeleteEach<'a, R> {
    ghost fits = { λ it _. StandAlone it.table };

    ghost accepts = { λ it _. AreKeysOf it.table R.key × StandAlone it.table };

    ghost makes = { λ it. without_each it.table R.key it.facts.now };

    fn run<S: Alter>(&self, tx: &mut Transaction<'_, S>) -> Result<(), Error> {
        delete_each(tx, self.table, self.facts)
    }
}
