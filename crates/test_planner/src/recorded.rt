//! What a run reads of its store and hands to it, statement after statement.
ghost use Rattle.plan_store.specs.Contents.{content_of};

use crate::windows::{Shown, shown_in, with_digit};
use app_definitions::Definitions;
use external_dependencies::{Links, Pair};
use plan_store::{
    Bounds, Change, Content, Job, ListFault, Need, PlanStore, RowSink, StoreFault, View, What,
};
use planner_cli::run;
use std::alloc::Global;
use std::process::Abort;
use work_calendars::App;

/// What one statement read and changed.
#[derive(Clone, Copy, Debug, PartialEq, Eq)]
struct Record {
    /// The needs of its windows, one after another, each as a digit: 1 the definitions, 2 a key, 3 the long-term plan, 4
    /// that of one application, 5 a daily plan.
    needs: u64,
    /// What the last of these windows shows.
    shown: Option<Shown>,
    /// The pairs that its change adds, as digits, successor first.
    added: u64,
    /// Those that it removes.
    removed: u64,
}

/// Nothing was read, and nothing changed.
const NOTHING: Record = Record {
    needs: 0,
    shown: None,
    added: 0,
    removed: 0,
};

/// A store over lists that records what is read of it and handed to it. It promises nothing: its contract knows it as one
/// that is never honest.
#[derive(Drop)]
struct Recorder {
    lists: Content,
    record: Record,
}

impl PlanStore for Recorder {
    ghost content = { λ store. content_of store.lists };

    ghost is_honest = { λ _. ⊥ };

    ghost failures = { λ _. 0 };

    ghost may_leave = { λ _ _. ⊥ };

    ghost is_clean = { λ _. ⊥ };

    ghost is_whole = { λ _. ⊥ };

    ghost has_failed = { λ _ _. ⊥ };

    ghost left_is_clean = { λ _ _ left. left };

    ghost honest_is_sound = { λ _ honest. absurd honest };

    fn definitions(&mut self, _alloc: Global) -> Result<Definitions, StoreFault> {
        Ok(self.lists.definitions.clone()?)
    }

    fn bounds(&mut self) -> Result<Option<Bounds>, StoreFault> {
        Ok(self.lists.bounds)
    }

    fn links(&mut self, alloc: Global) -> Result<Links, StoreFault> {
        Ok(self.lists.in_force.to_links(alloc)?)
    }

    fn read_window<'a>(&'a mut self, alloc: Global, need: Need) -> Result<View<'a>, StoreFault> {
        self.lists.fill_window(alloc, &need)?;
        self.record.needs = with_digit(self.record.needs, digit_of(need));
        self.record.shown = shown_in(&self.lists.window(&need));
        Ok(self.lists.window(&need))
    }

    fn job<'a>(&'a mut self, _alloc: Global, number: u64) -> Result<Option<&'a Job>, StoreFault> {
        Ok(self.lists.job(number))
    }

    fn rows_to<K: RowSink>(
        &mut self,
        alloc: Global,
        what: What,
        app: Option<&App>,
        sink: &mut K,
    ) -> Result<usize, ListFault> {
        self.lists.rows_to(alloc, what, app, sink)
    }

    fn apply(&mut self, alloc: Global, change: Change) -> Result<(), StoreFault> {
        if !self.lists.admits(alloc, &change)? {
            return Err(StoreFault::Memory);
        }
        self.record.added = digits_of(change.pairs.added.as_slice());
        self.record.removed = digits_of(change.pairs.removed.as_slice());
        self.lists.apply(alloc, change)?;
        Ok(())
    }
}

/// The digit of a need.
fn digit_of(need: Need) -> u32 {
    match need {
        Need::Definitions => 1,
        Need::Key(_) => 2,
        Need::LongTerm(None) => 3,
        Need::LongTerm(Some(_)) => 4,
        Need::Daily(_) => 5,
    }
}

/// The pairs as digits, successor first; 0 where there is none.
fn digits_of(pairs: &[Pair]) -> u64 {
    let mut number: u64 = 0;
    for pair in pairs {
        number = with_digit(number, pair.successor.get());
        number = with_digit(number, pair.predecessor.get());
    }
    number
}

/// A and B follow A on two days.
const TWO: &[u8] = b"define calendars --job 1\nDEFAULT,SAT,FREE\nDEFAULT,SUN,FREE\n/*\n\
    define periods --job 2\nDAY,A,2024-01-01,1\n/*\n\
    define applications --job 3\nA,A,\nB,A,\n/*\n\
    define run-cycles --job 4\nA,RC,N,DAY,4,1,2024-01-01,,08.00,0,18.00\nB,RC,N,DAY,4,1,2024-01-01,,08.00,0,18.00\n/*\n\
    define predecessors --job 11\nA,A\nB,A\n/*\n";

/// A statement, the needs of its windows, what the last one shows, and the pairs that it adds and removes.
type Case = (&'static [u8], u64, Option<Shown>, u64, u64);

/// One after another. In a window of both plans the rows come by application, then by arrival.
const CASES: [Case; 15] = [
    // It looks at the bounds and the days first. Nothing is planned yet, and then A and B are 1 and 2, and 3 and 4.
    (
        b"ltp-create --from 2024-01-01 --to 2024-01-02 --job 5",
        13,
        None,
        213143,
        0,
    ),
    // What it deletes preceded 2 and 3.
    (
        b"ltp-delete --app A --ia 2024-01-01/08.00 --job 12",
        2,
        Some([1324, 0, 0, 234, 113, 0, 40]),
        0,
        2131,
    ),
    // Before all others, it is the nearest of 2 and 3. The pair 4 after 3 is not touched.
    (
        b"ltp-add --app A --ia 2024-01-01/07.00 --job 13",
        2,
        Some([324, 0, 0, 4, 3, 0, 30]),
        2535,
        0,
    ),
    // A trial reads as the statement does, and changes nothing.
    (
        b"dp-trial extend --to 2024-01-02/08.00",
        15,
        Some([52, 0, 0, 0, 0, 0, 40]),
        0,
        0,
    ),
    (
        b"dp-extend --to 2024-01-02/08.00 --job 14",
        15,
        Some([52, 0, 0, 0, 0, 0, 40]),
        0,
        0,
    ),
    // Its predecessor isn't complete.
    (
        b"cp-start --app B --ia 2024-01-01/08.00 --job 15",
        2,
        Some([34, 52, 0, 234, 553, 0, 22]),
        0,
        0,
    ),
    (
        b"cp-start --app A --ia 2024-01-01/07.00 --job 16",
        2,
        Some([34, 52, 0, 234, 553, 0, 22]),
        0,
        0,
    ),
    (
        b"cp-complete --app A --ia 2024-01-01/07.00 --job 17",
        2,
        Some([34, 52, 0, 234, 553, 0, 22]),
        0,
        0,
    ),
    // Of the long-term plan nothing arrives before the plan end, where it stays.
    (
        b"dp-replan --job 18",
        15,
        Some([0, 52, 0, 0, 0, 0, 22]),
        0,
        0,
    ),
    // Now 5 is in history, as the last of A.
    (
        b"cp-add --app A --ia 2024-01-01/07.30 --job 19",
        2,
        Some([34, 2, 5, 234, 553, 0, 21]),
        263665,
        2535,
    ),
    (
        b"dp-extend --to 2024-01-03/00.00 --job 20",
        15,
        Some([34, 62, 0, 0, 0, 0, 22]),
        0,
        0,
    ),
    // The lists that are defined are in force, so nothing changes.
    (
        b"ltp-modify-one --app B --job 21",
        14,
        Some([0, 6324, 5, 2346, 6635, 0, 4]),
        0,
        0,
    ),
    (
        b"undefine predecessors --name B --job 22",
        1,
        Some([0, 0, 0, 0, 0, 0, 4]),
        0,
        0,
    ),
    // A has its list, and B has none any more.
    (
        b"ltp-modify-all --job 23",
        13,
        Some([0, 6324, 5, 2346, 6635, 0, 4]),
        0,
        2643,
    ),
    // A listing needs no window.
    (b"list dependencies", 0, None, 0, 0),
];

/// Runs a statement over the store, and returns what that recorded.
fn recorded(rt: &impl Abort, alloc: Global, store: &mut Recorder, text: &[u8]) -> Record {
    store.record = NOTHING;
    let mut reader = text;
    let is_run = run(alloc, store, &mut reader, &mut Vec::new(alloc)).is_ok();
    assert!(rt; is_run, "a run");
    store.record
}

// Each window is for the statement's own need, the last one for its rows, and only pairs that differ are in a change.
#[test]
fn runs_read_and_change_what_their_statements_name(rt: HostRuntime) {
    let alloc = rt.alloc();
    let mut store = Recorder {
        lists: Content::new(alloc),
        record: NOTHING,
    };
    let _ = recorded(&rt, alloc, &mut store, TWO);
    for (text, needs, shown, added, removed) in CASES {
        let wanted = Record {
            needs,
            shown,
            added,
            removed,
        };
        let found = recorded(&rt, alloc, &mut store, text);
        assert_eq!(&rt; found, wanted);
    }
}
