// What the tables of the plans list.

ghost use Rattle.plan_tables_loading.specs.Order.{NumbersRise, row_number, current_number, deletion_number, job_number};

use crate::meta::Meta;
use external_dependencies::{Links, Pair};
use occurrences::{CurrentRow, Deletion, Row};
use planner_machine::Job;

/// The rows of the plans, in the order of their serials.
#[derive(Drop)]
pub struct PlanRows {
    /// The long-term plan.
    pub ltp: Vec<Row>,
    /// The current plan.
    pub cp: Vec<CurrentRow>,
    /// History.
    pub history: Vec<Row>,
    /// The deletions.
    pub deletions: Vec<Deletion>,
    ghost ltp_order: { NumbersRise row_number ltp.items },
    ghost cp_order: { NumbersRise current_number cp.items },
    ghost history_order: { NumbersRise row_number history.items },
    ghost deletion_order: { NumbersRise deletion_number deletions.items },
}

/// What the tables of the plans encode: rows, lists in force, pairs and jobs.
#[derive(Drop)]
pub struct PlanLists {
    /// How far the plans reach.
    pub meta: Meta,
    /// The rows.
    pub rows: PlanRows,
    /// The lists in force.
    pub links: Links,
    /// The pairs.
    pub pairs: Vec<Pair>,
    /// The kept jobs, in the order of their numbers.
    pub jobs: Vec<Job>,
    ghost job_order: { NumbersRise job_number jobs.items },
}
