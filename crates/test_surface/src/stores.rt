//! `plan_store`: the content of a planner, what a change makes of it, and the calls of a store.
ghost use Rattle.std.specs.Prelude.{⊤};
ghost use Rattle.planner_machine.specs.Sound.{IsSound};
ghost use Rattle.plan_store.specs.Changes.{Fits, after};

use app_definitions::Definitions;
use external_dependencies::{Link, Links, PairChange};
use occurrences::{CurrentRow, Deletion, Key, Refusal, Reply, Row};
use plan_store::{
    Answer, Bounds, Change, Content, DefinitionChange, Item, Job, JobText, ListFault, ListStore,
    Moves, Need, NewLists, PlanStore, RowSink, SinkFault, StoreFault, Verdict, View, What,
};
use plan_store_lists::{LinkBlocks, PairBlocks, RowBlocks};
use std::alloc::Global;
use work_calendars::{App, Memory, Moment};

pub fn definitions<S: PlanStore>(store: &mut S, alloc: Global) -> Result<Definitions, StoreFault> {
    store.definitions(alloc)
}

pub fn bounds<S: PlanStore>(store: &mut S) -> Result<Option<Bounds>, StoreFault> {
    store.bounds()
}

pub fn links<S: PlanStore>(store: &mut S, alloc: Global) -> Result<Links, StoreFault> {
    store.links(alloc)
}

// Here a job is lent.
pub fn job<S: PlanStore>(
    store: &mut S,
    alloc: Global,
    number: u64,
) -> Result<Option<&Job>, StoreFault> {
    store.job(alloc, number)
}

// Here a window is lent, and a call answers each question about its rows and pairs.
pub fn read_window<S: PlanStore>(
    store: &mut S,
    alloc: Global,
    need: Need,
) -> Result<View<'_>, StoreFault> {
    store.read_window(alloc, need)
}

pub fn rows_to<S: PlanStore, K: RowSink>(
    store: &mut S,
    alloc: Global,
    what: What,
    app: Option<&App>,
    sink: &mut K,
) -> Result<usize, ListFault> {
    store.rows_to(alloc, what, app, sink)
}

// Here a store takes the change by value, and the change also has to fit the content. The store also says whether its
// device gave a wrong answer, and whether anything about it is in doubt.
pub fn apply<S: PlanStore>(store: &mut S, alloc: Global, change: Change) -> Result<(), StoreFault>
    requires fits { S.is_honest store.old → Fits change (S.content store.old) }
    requires sound { S.is_honest store.old → IsSound (after change (S.content store.old)) }
{
    store.apply(alloc, change)
}

pub fn new_list_store(alloc: Global) -> ListStore {
    ListStore::new(alloc)
}

// Here it is in a crate of its own, which stands on this one.
pub fn is_sound(alloc: Global, content: &Content) -> Result<bool, Memory> {
    plan_store_soundness::is_sound(alloc, content)
}

/// A need by the key or moment that it names.
// Here a need may also be the definitions alone, and that of the long-term plan may name one application.
pub fn named_by(need: Need) -> (Option<Key>, Option<App>, Option<Moment>) {
    match need {
        Need::Definitions => (None, None, None),
        Need::Key(key) => (Some(key), None, None),
        Need::LongTerm(app) => (None, app, None),
        Need::Daily(moment) => (None, None, Some(moment)),
    }
}

/// The word of a listing.
pub fn word(what: What) -> &'static str {
    match what {
        What::Ltp => "ltp",
        What::Cp => "cp",
        What::History => "history",
        What::Deletions => "deletions",
        What::Dependencies => "dependencies",
        What::Links => "links",
    }
}

/// Takes any item, and counts those of each kind.
#[derive(Drop)]
pub struct Counted {
    plan: u64,
    marked: u64,
    pairs: u64,
    links: u64,
}

impl RowSink for Counted {
    ghost accepts = { λ old item new. ⊤ };

    ghost refuses = { λ old item new. ⊤ };

    fn take(&mut self, item: Item<'_>) -> Result<(), SinkFault> {
        let count = match item {
            Item::Plan(_) => &mut self.plan,
            Item::Marked(_, _) => &mut self.marked,
            Item::Pair(_, _) => &mut self.pairs,
            Item::Link(_) => &mut self.links,
        };
        if *count == u64::MAX {
            return Err(SinkFault);
        }
        *count += 1;
        Ok(())
    }
}

pub fn plan_item(row: &Row) -> Item<'_> {
    Item::Plan(row)
}

pub fn marked_item(row: &Row, letter: u8) -> Item<'_> {
    Item::Marked(row, letter)
}

pub fn pair_item<'a>(successor: &'a Row, predecessor: &'a Row) -> Item<'a> {
    Item::Pair(successor, predecessor)
}

pub fn link_item(link: &Link) -> Item<'_> {
    Item::Link(link)
}

// Here the fault of a sink comes with what the sink returned, which has no fields.
pub fn list_fault_number(fault: ListFault) -> u8 {
    match fault {
        ListFault::Memory => 1,
        ListFault::Device => 2,
        ListFault::Sink(SinkFault) => 3,
    }
}

pub fn store_fault_number(fault: StoreFault) -> u8 {
    match fault {
        StoreFault::Memory => 1,
        StoreFault::Device => 2,
    }
}

// Here the text of a job is a type of its own over a vector.
pub fn new_job(number: u64, text: Vec<u8>, reply: Result<Reply, Refusal>) -> Job {
    let text = JobText::from_vec(text);
    Job {
        number,
        text,
        reply,
    }
}

pub fn answer(job: &Job) -> Answer {
    job.reply
}

// Here a change has the change of the definitions, for each set the rows that go, change and come, and the lists that
// come into force, all or those of one application.
pub fn change(
    definitions: DefinitionChange,
    bounds: Option<Bounds>,
    issued: Option<u32>,
    in_force: Option<NewLists>,
    ltp: Moves<Row>,
    cp: Moves<CurrentRow>,
    history: Moves<Row>,
    deletions: Moves<Deletion>,
    pairs: PairChange,
    job: Option<Job>,
) -> Change {
    Change {
        definitions,
        bounds,
        issued,
        in_force,
        ltp,
        cp,
        history,
        deletions,
        pairs,
        job,
    }
}

pub fn moves(gone: Vec<Row>, changed: Vec<Row>, put: Vec<Row>) -> Moves<Row> {
    Moves { gone, changed, put }
}

/// The reply or the refusal of a verdict.
pub fn answer_of(verdict: &Verdict) -> Answer {
    match verdict {
        Verdict::Done(_, reply) => Ok(*reply),
        Verdict::Refused(refusal) => Err(*refusal),
    }
}

// Here a content also has private fields, so it is made by a call and changed by `apply`.
pub fn new_content(alloc: Global) -> Content {
    Content::new(alloc)
}

/// The public parts of a content.
// Here each set of rows, the pairs and the lists in force are lists with blocks, which a change moves apart.
pub fn plans(content: &Content) -> (&RowBlocks<Row>, &RowBlocks<CurrentRow>, &PairBlocks) {
    (&content.ltp, &content.cp, &content.pairs)
}

pub fn past(content: &Content) -> (&RowBlocks<Row>, &RowBlocks<Deletion>, &[Job]) {
    (&content.history, &content.deletions, &content.jobs)
}

pub fn rules(content: &Content) -> (&Definitions, &LinkBlocks, Option<Bounds>, u32) {
    (
        &content.definitions,
        &content.in_force,
        content.bounds,
        content.issued,
    )
}
