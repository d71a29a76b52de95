ghost use Rattle.std.specs.Prelude.{◌≡◌, ◌⊎◌, ℕ, ◌<◌, ◌≤◌, Err, OnOk, IfOk, IfErr, option_copied};
ghost use Rattle.std.specs.Borrow.{sem};
ghost use Rattle.planner_machine.specs.Content.{Content as ContentValue};
ghost use Rattle.plan_store.specs.Changes.{Fits, after};
ghost use Rattle.planner_machine.specs.Sound.{IsSound};
ghost use Rattle.plan_store.specs.Faults.{IsMildListing, MoreFailures};
ghost use Rattle.plan_store.specs.Listings.{EmitsAll, EmitsPart, IsListing};
ghost use Rattle.plan_store.specs.Stores.{Applies, LendsRead, ReadsStore};
ghost use Rattle.plan_store.specs.Views.{Shows};

use crate::changes::Change;
use crate::listings::{ListFault, RowSink, What};
use crate::views::View;
use app_definitions::Definitions;
use external_dependencies::Links;
use occurrences::Key;
use planner_machine::{Bounds, Job};
use std::alloc::{AllocError, Global};
use thiserror::Error;
use work_calendars::{App, Moment};

/// What a decision has to see. Each window shows the definitions, the bounds, how many serials are issued, the lists
/// in force, and how many rows each of the two plans has. A row is open if it is in the long-term plan, or waits in
/// the current plan. A window that shows a pair has both its rows, in whatever set they are.
#[derive(Clone, Copy, Debug, PartialEq, Eq)]
pub enum Need {
    /// The need of a statement that reads definitions alone: no row and no pair, and nothing of history.
    Definitions,
    /// The need of a statement on one key. Rows: those of both plans. Pairs: those whose successor is open, or is the
    /// live row of the key, in a plan or in history. Of history: at the key's arrival or before it, the last row of
    /// its application, which is the key's live row if that is in history, and of each application of its list in
    /// force.
    Key(Key),
    /// The need of a statement on the long-term plan, for all applications or for one. Rows: those of both plans, and
    /// what an operator deleted from the plan end on. Pairs: those whose successor is open. Of history, for all
    /// applications, or for the one and each whose list in force names it: for each row of theirs that waits in the
    /// current plan, at its arrival or before it, the last row of each application of its list, in force or defined; and
    /// at the plan end or before it, the last row of each application that their lists name, in force or defined.
    LongTerm(Option<App>),
    /// The need of a daily plan to that moment. Rows: those of the current plan, and those of the long-term plan that
    /// arrive before the moment. No pair, and nothing of history.
    Daily(Moment),
}

/// Why a call of a store failed.
#[derive(Clone, Copy, Debug, PartialEq, Eq, Error)]
pub enum StoreFault {
    /// Memory was refused; the content is as it was.
    #[error("out of memory")]
    Memory,
    /// The device failed. The store returns this until it is opened again.
    #[error("the device failed")]
    Device,
}

impl From<AllocError> for StoreFault {
    ghost use Rattle.plan_store.specs.declared.stores.StoreFault.TheVariants.{Memory};

    ghost from_gives = { λ _ fault. fault ≡ Memory };

    fn from(_: AllocError) -> Self {
        StoreFault::Memory
    }
}

/// What keeps a planner's content. It counts the failures of its device, and nothing else: the count stays if a call
/// answers, and if memory is refused. A call that reads has a cause if it blames the device. The trait states both, and
/// not one store alone: a window and a job are lent, and what is lent is known by these clauses only. Why a change is
/// not made depends on what a store can take, so a store states the causes of its own `apply`.
pub trait PlanStore {
    // the content
    ghost content: { Self → ContentValue };

    // what the store reads is what it wrote, and it can still be read
    ghost is_honest: { Self → Type 0 };

    // how often its device failed, up to the greatest number that is counted
    ghost failures: { Self → ℕ };

    // a crash now may leave this content
    ghost may_leave: { Self → ContentValue → Type 0 };

    // its device gave no wrong answer that was recognized as one
    ghost is_clean: { Self → Type 0 };

    // no failure was counted, and nothing of its device is in doubt
    ghost is_whole: { Self → Type 0 };

    // its device failed between these two, or could be read no more before
    ghost has_failed: { Self → Self → Type 0 };

    /// An owned copy of the definitions.
    fn definitions(&mut self, alloc: Global) -> Result<Definitions, StoreFault>
        ensures { ReadsStore is_honest content failures may_leave is_clean is_whole has_failed
            self.old self.new result (λ all. all ≡ (content self.old).definitions) };

    /// How far the plans reach; `None` before the long-term plan is created.
    fn bounds(&mut self) -> Result<Option<Bounds>, StoreFault>
        ensures { ReadsStore is_honest content failures may_leave is_clean is_whole has_failed
            self.old self.new result (λ bounds. bounds ≡ (content self.old).sets.bounds) };

    /// An owned copy of the lists in force.
    fn links(&mut self, alloc: Global) -> Result<Links, StoreFault>
        ensures { ReadsStore is_honest content failures may_leave is_clean is_whole has_failed
            self.old self.new result (λ links. links ≡ (content self.old).in_force) };

    /// Lends a window that shows what the need names.
    fn read_window<'a>(&'a mut self, alloc: Global, need: Need) -> Result<View<'a>, StoreFault>
        ensures* { sem 𝓛 (LendsRead Self.row is_honest content failures may_leave is_clean is_whole
            has_failed self.old self.entry result
            (λ view. Shows need view (content self.old))) };

    /// Lends the job that is kept under the number, if there is any.
    fn job<'a>(&'a mut self, alloc: Global, number: u64) -> Result<Option<&'a Job>, StoreFault>
        ensures* { sem 𝓛 (LendsRead Self.row is_honest content failures may_leave is_clean is_whole
            has_failed self.old self.entry result
            (λ job. option_copied job ≡ (content self.old).jobs number)) };

    /// Passes the sink what a listing shows, in its order, of one application or of all, and returns how many items
    /// the sink accepted. A fault leaves the sink with those before it.
    fn rows_to<K: RowSink>(
        &mut self,
        alloc: Global,
        what: What,
        app: Option<&App>,
        sink: &mut K,
    ) -> Result<usize, ListFault>
        ensures all { is_honest self.new
            → IfOk result (EmitsAll K.accepts (IsListing what (option_copied app.entry)
            (content self.old)) sink.old sink.new) }
        ensures part { is_honest self.old → is_honest self.new ⊎ is_clean self.new
            → IfErr result (EmitsPart K.accepts K.refuses (IsListing what (option_copied app.entry)
            (content self.old)) sink.old sink.new) }
        ensures same { is_honest self.new → content self.new ≡ content self.old }
        ensures crash { (c : ContentValue) → may_leave self.new c → may_leave self.old c }
        ensures blames { IfErr result (λ fault. fault ≡ ListFault.Device
            → MoreFailures (failures self.old) (failures self.new) ⊎ (0 < failures self.old)) }
        ensures broken { 0 < failures self.old → result ≡ Err ListFault.Device }
        ensures counts { failures self.old ≤ failures self.new }
        ensures still { OnOk result (failures self.new ≡ failures self.old) }
        ensures steady { IfErr result (λ fault. fault ≡ ListFault.Memory
            → failures self.new ≡ failures self.old) }
        ensures caused { failures self.old ≡ 0 → is_clean self.new
            → IfErr result (λ fault. fault ≡ ListFault.Device → has_failed self.old self.new) }
        ensures honest { is_honest self.new → is_honest self.old }
        ensures clean { is_clean self.new → is_clean self.old }
        ensures stays_honest { is_honest self.old → is_clean self.new
            → IfErr result (IsMildListing (is_whole self.new)) → is_honest self.new }
        ensures stays_whole { OnOk result (is_whole self.old → is_whole self.new) };

    /// Makes the change, whole or not at all.
    fn apply(&mut self, alloc: Global, change: Change) -> Result<(), StoreFault>
        requires fits { is_honest self.old → Fits change (content self.old) }
        requires sound { is_honest self.old → IsSound (after change (content self.old)) }
        ensures { Applies is_honest content failures may_leave is_clean is_whole
            self.old self.new change result };

    // nothing is said of what a crash may leave once the device gave a wrong answer
    ghost left_is_clean: { (store : Self) (c : ContentValue) → may_leave store c → is_clean store };

    // what an honest store keeps is sound, so no call requires it of a caller
    ghost honest_is_sound: { (store : Self) → is_honest store → IsSound (content store) };
}
