//! A stream over a store on tables in memory, compared with one of lists.
ghost use Rattle.std.specs.Prelude.{◌≡◌, false, IfOk};
ghost use Rattle.test_stops.specs.Sound.{KeepsSound};

use crate::trials::Answered;
use plan_tables::TableStore;
use plan_tables_opening::{OpenFault, open_content};
use planner_cli::{exit_status, run};
use sqlite::{Alter, Connection, MemStore};
use std::alloc::Global;
use test_contents::has_run;
use test_stops::middle_of;

/// The exit status after a fault.
const FAILED: u8 = 8;

/// The result of a run over tables.
#[derive(Debug, Drop)]
pub struct Tabled {
    /// What it printed, and its status.
    pub answered: Answered,
    /// How its content differs from that of lists, if it does.
    pub unlike: Option<&'static str>,
}

/// Runs a part of a stream over tables, and closes them; with its exit status.
fn run_part<S: Alter + Drop>(
    alloc: Global,
    store: TableStore<S>,
    text: &[u8],
    replies: &mut Vec<u8>,
) -> (Connection<S>, u8)
    requires { KeepsSound store }
    ensures { result.0.in_transaction ≡ false }
{
    let mut store = store;
    let mut left = text;
    let status = exit_status(&run(alloc, &mut store, &mut left, replies));
    (store.into_connection(), status)
}

/// Runs the first part of a stream over tables in memory, and closes them; with its exit status.
fn begin_tables(
    alloc: Global,
    text: &[u8],
    replies: &mut Vec<u8>,
) -> Result<(Connection<MemStore>, u8), OpenFault>
    ensures { IfOk result (λ left. left.0.in_transaction ≡ false) }
{
    match TableStore::open_memory(alloc) {
        Ok(store) => Ok(run_part(alloc, store, text, replies)),
        Err(fault) => Err(fault),
    }
}

/// Opens tables again.
fn take_up<S: Alter + Drop>(alloc: Global, conn: Connection<S>) -> Result<TableStore<S>, OpenFault>
    requires { conn.in_transaction ≡ false }
    ensures { IfOk result KeepsSound }
{
    match TableStore::adopt(alloc, conn) {
        Ok(store) => Ok(store),
        Err((fault, _conn)) => Err(fault),
    }
}

/// Opens tables again, runs a further part of the stream over them, and closes them; with its exit status.
fn go_on<S: Alter + Drop>(
    alloc: Global,
    conn: Connection<S>,
    text: &[u8],
    replies: &mut Vec<u8>,
) -> Result<(Connection<S>, u8), OpenFault>
    requires { conn.in_transaction ≡ false }
    ensures { IfOk result (λ left. left.0.in_transaction ≡ false) }
{
    match take_up(alloc, conn) {
        Ok(store) => Ok(run_part(alloc, store, text, replies)),
        Err(fault) => Err(fault),
    }
}

/// Runs both parts of a stream over tables in memory, which are closed between them and after them; with its exit
/// status.
fn run_parts(
    alloc: Global,
    first: &[u8],
    second: &[u8],
    replies: &mut Vec<u8>,
) -> Result<(Connection<MemStore>, u8), OpenFault>
    ensures { IfOk result (λ left. left.0.in_transaction ≡ false) }
{
    let (conn, status) = begin_tables(alloc, first, replies)?;
    if status == FAILED {
        return Ok((conn, status));
    }
    let (conn, ended) = go_on(alloc, conn, second, replies)?;
    Ok((conn, ended.max(status)))
}

/// How the tables differ from the lists of a whole run, if they do.
fn unlike_lists<S: Alter + Drop>(
    alloc: Global,
    conn: Connection<S>,
    text: &[u8],
) -> Result<Option<&'static str>, OpenFault>
    requires { conn.in_transaction ≡ false }
{
    let mut conn = conn;
    let content = open_content(alloc, &mut conn)?;
    Ok(has_run(alloc, &content, text).err())
}

/// Runs a stream over tables in memory, which are closed and opened again halfway and at the end, and then compares
/// the definitions, plans and jobs in them with the lists of a whole run.
pub fn run_over_tables(alloc: Global, text: &[u8]) -> Result<Tabled, OpenFault> {
    let (first, second) = text.split_at(middle_of(text));
    let mut replies = Vec::new(alloc);
    let (conn, status) = run_parts(alloc, first, second, &mut replies)?;
    let unlike = unlike_lists(alloc, conn, text)?;
    Ok(Tabled {
        answered: Answered { replies, status },
        unlike,
    })
}
