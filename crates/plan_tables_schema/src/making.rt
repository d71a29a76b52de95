// The tables are created.

ghost use Rattle.std.specs.Prelude.{◌≡◌, [], false};
ghost use Rattle.plan_tables_schema.specs.Free.{IsFree};
ghost use Rattle.plan_tables_schema.specs.Made.{HoldsMade, IsMadeBeside, IsMadeSoFar, IsMadeWhole, IsReady, earlier, up_to};
ghost use Rattle.plan_tables_schema.specs.Rows.{MayFail};
ghost use Rattle.plan_tables_schema.specs.Schema.{all_tables};
ghost use Rattle.plan_tables_schema.specs.Writes.{Commits, Makes};

use crate::tables::{TABLES, Table};
use crate::texts::create_text;
use sqlite::{Alter, Connection, Error, Transaction};

// Makes the table, which is the next.
fn make<S: Alter>(tx: &mut Transaction<'_, S>, table: Table) -> Result<(), Error>
    ensures { Makes S.Store tx.old tx.new result (IsMadeSoFar (earlier table))
        (IsMadeSoFar (up_to table)) }
{
    tx.execute(create_text(table), &[])?;
    Ok(())
}

fn make_each<S: Alter>(tx: &mut Transaction<'_, S>) -> Result<(), Error>
    ensures { Makes S.Store tx.old tx.new result (IsMadeSoFar []) (IsMadeSoFar all_tables) }
{
    for table in &TABLES {
        make(tx, *table)?;
    }
    Ok(())
}

/// Makes the tables, next to those of the database, inside a transaction, if nothing is in their way. It fails only if
/// memory is refused, the device fails, the connection was closed, or a limit on steps is reached.
pub fn make_all<S: Alter>(tx: &mut Transaction<'_, S>) -> Result<(), Error>
    ensures { Makes S.Store tx.old tx.new result IsReady IsMadeWhole }
{
    make_each(tx)
}

/// Makes the tables, next to those of the database, in one transaction, if nothing is in their way. It fails as
/// `make_all` does.
pub fn make_tables<S: Alter>(conn: &mut Connection<S>) -> Result<(), Error>
    requires { conn.old.in_transaction ≡ false }
    ensures { Commits S.Store conn.old conn.new result (λ s. IsFree s.now.schema) IsMadeBeside
        MayFail HoldsMade }
{
    let settled = conn.is_autocommit();
    prove!(settled);
    let mut tx = conn.transaction();
    make_all(&mut tx)?;
    tx.commit()?;
    Ok(())
}
