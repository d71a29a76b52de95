//! Windows over a plan: they show what their need names, and no more.
use external_dependencies::Pair;
use occurrences::{CurrentRow, Key, Row, Serial};
use plan_store::{ListStore, Need, PlanStore, View};
use plan_store_lists::RowBlocks;
use planner_cli::run;
use std::alloc::Global;
use std::process::Abort;
use work_calendars::{App, Moment};

/// A and B follow A, and nothing follows C, on three days, of which two are planned: A has 1, 4 and 7, B has 2, 5 and 8,
/// and C has 3, 6 and 9. Those of A on the first two days and that of C on the first are history; B waits on the first
/// day and has started on the second; an operator deleted C on the second and the third.
const PLAN: &[u8] = b"define calendars --job 1\nDEFAULT,SAT,FREE\nDEFAULT,SUN,FREE\n/*\n\
    define periods --job 2\nDAY,A,2024-01-01,1\n/*\n\
    define applications --job 3\nA,A,\nB,A,\nC,A,\n/*\n\
    define run-cycles --job 4\nA,RC,N,DAY,4,1,2024-01-01,,08.00,0,18.00\nB,RC,N,DAY,4,1,2024-01-01,,08.00,0,18.00\n\
    C,RC,N,DAY,4,1,2024-01-01,,08.00,0,18.00\n/*\n\
    define predecessors --job 5\nA,A\nB,A\n/*\n\
    ltp-create --from 2024-01-01 --to 2024-01-03 --job 6\n\
    ltp-delete --app C --ia 2024-01-02/08.00 --job 7\n\
    dp-extend --to 2024-01-03/00.00 --job 8\n\
    cp-start --app A --ia 2024-01-01/08.00 --job 9\n\
    cp-complete --app A --ia 2024-01-01/08.00 --job 10\n\
    cp-start --app A --ia 2024-01-02/08.00 --job 11\n\
    cp-complete --app A --ia 2024-01-02/08.00 --job 12\n\
    cp-start --app C --ia 2024-01-01/08.00 --job 13\n\
    cp-complete --app C --ia 2024-01-01/08.00 --job 14\n\
    dp-replan --job 15\n\
    cp-start --app B --ia 2024-01-02/08.00 --job 16\n\
    ltp-delete --app C --ia 2024-01-03/08.00 --job 17\n";

/// What a window shows, each as the digits of serials: the rows of the long-term plan, those of the current plan, those
/// of history, the successors of pairs, their predecessors, and the deletions; and as two digits how many rows the
/// long-term plan has, and how many the current plan.
pub(crate) type Shown = [u64; 7];

/// A need as words, and what a window for it shows.
type Case = (&'static str, &'static str, &'static str, Shown);

/// One after another on one store, so that each shows its own. The pairs are 2 after 1, 7 after 4 and 8 after 7 of what
/// is open, and 5 after 4 and 4 after 1 of what is not.
const CASES: [Case; 13] = [
    ("definitions", "", "", [0, 0, 0, 0, 0, 0, 22]),
    // It ends before its moment.
    ("daily", "", "2024-01-03/08.00", [0, 25, 0, 0, 0, 0, 22]),
    ("daily", "", "2024-01-03/08.01", [78, 25, 0, 0, 0, 0, 22]),
    ("key", "A", "2024-01-03/08.00", [78, 25, 4, 278, 147, 0, 22]),
    // Of A the last then, and nothing for what follows it.
    ("key", "A", "2024-01-02/07.59", [78, 25, 1, 278, 147, 0, 22]),
    // What arrives with it may precede it, where another application lists it.
    ("key", "B", "2024-01-01/08.00", [78, 25, 1, 278, 147, 0, 22]),
    // It has started, and its pair is shown for its own key alone.
    (
        "key",
        "B",
        "2024-01-02/08.00",
        [78, 25, 4, 2578, 1447, 0, 22],
    ),
    // The last of its own application, which no list names.
    ("key", "C", "2024-01-02/08.00", [78, 25, 3, 278, 147, 0, 22]),
    // It is complete and in history, and its pair, 4 after 1, is shown for its own key alone.
    (
        "key",
        "A",
        "2024-01-02/08.00",
        [78, 25, 4, 2478, 1147, 0, 22],
    ),
    // 1 for what waits, and 4 at the plan end; 3 is of no list; of the deletions 9 alone arrives from the plan end on.
    ("long-term", "", "", [78, 25, 14, 278, 147, 9, 22]),
    // Of one application: 4 for its own list at the plan end, and 1 for B, which waits and names it.
    ("one", "A", "", [78, 25, 14, 278, 147, 9, 22]),
    // It has no list, and no list names it.
    ("one", "C", "", [78, 25, 0, 278, 147, 9, 22]),
    ("definitions", "", "", [0, 0, 0, 0, 0, 0, 22]),
];

/// A and B follow A on two days, of which the first is planned: 1, of A, is complete and in history.
const TWO_DAYS: &[u8] = b"define calendars --job 1\nDEFAULT,SAT,FREE\nDEFAULT,SUN,FREE\n/*\n\
    define periods --job 2\nDAY,A,2024-01-01,1\n/*\n\
    define applications --job 3\nA,A,\nB,A,\n/*\n\
    define run-cycles --job 4\nA,RC,N,DAY,4,1,2024-01-01,,08.00,0,18.00\nB,RC,N,DAY,4,1,2024-01-01,,08.00,0,18.00\n/*\n\
    define predecessors --job 11\nA,A\nB,A\n/*\n\
    ltp-create --from 2024-01-01 --to 2024-01-02 --job 5\n\
    dp-extend --to 2024-01-02/08.00 --job 6\n\
    cp-start --app B --ia 2024-01-01/08.00 --job 12\n\
    cp-start --app A --ia 2024-01-01/08.00 --job 13\n\
    cp-complete --app A --ia 2024-01-01/08.00 --job 14\n\
    dp-replan --job 15\n";

/// A daily plan to the end of the last day sees 2, 3 and 4 alone.
const TO_THE_END: [Case; 1] = [("daily", "", "2024-01-03/00.00", [34, 2, 0, 0, 0, 0, 21])];

/// The need of a case.
fn need_of(what: &str, app: &str, moment: &str) -> Option<Need> {
    match what {
        "definitions" => Some(Need::Definitions),
        "long-term" => Some(Need::LongTerm(None)),
        "one" => Some(Need::LongTerm(Some(App::from_text(app)?))),
        "daily" => Some(Need::Daily(Moment::from_text(moment)?)),
        _ => Some(Need::Key(Key {
            ia: Moment::from_text(moment)?,
            app: App::from_text(app)?,
        })),
    }
}

/// A number with one more digit.
pub(crate) fn with_digit(number: u64, digit: u32) -> u64 {
    number.saturating_mul(10).saturating_add(u64::from(digit))
}

/// The serials of rows.
fn serials_of(rows: &[Row]) -> u64 {
    let mut number: u64 = 0;
    for row in rows {
        number = with_digit(number, row.serial.get());
    }
    number
}

/// The serials of the rows of the long-term plan.
fn planned_serials_of(list: &RowBlocks<Row>) -> u64 {
    let mut number: u64 = 0;
    for block in list.blocks() {
        for row in block.items() {
            number = with_digit(number, row.serial.get());
        }
    }
    number
}

/// The serials of the rows of the current plan.
fn current_serials_of(list: &RowBlocks<CurrentRow>) -> u64 {
    let mut number: u64 = 0;
    for block in list.blocks() {
        for current in block.items() {
            number = with_digit(number, current.row.serial.get());
        }
    }
    number
}

/// The pairs that the window shows of the successor.
fn pairs_of<'a>(view: &View<'a>, number: u32) -> &'a [Pair] {
    match Serial::new(number) {
        Some(successor) => view.pairs_of_successor(successor),
        None => &[],
    }
}

/// The successors of pairs that the window shows.
fn successors_in(view: &View<'_>) -> u64 {
    let mut number: u64 = 0;
    for serial in 1..10u32 {
        if !pairs_of(view, serial).is_empty() {
            number = with_digit(number, serial);
        }
    }
    number
}

/// The predecessors of those pairs, each by the row that comes with the pair.
fn predecessors_in(view: &View<'_>) -> u64 {
    let mut number: u64 = 0;
    for serial in 1..10u32 {
        let Some(successor) = Serial::new(serial) else {
            continue;
        };
        for pair in view.pairs_of_successor(successor) {
            if let Some(placed) = view.predecessor(pair) {
                number = with_digit(number, placed.row.serial.get());
            }
        }
    }
    number
}

/// Whether the window shows that an operator deleted C then.
fn shows_deleted(view: &View<'_>, moment: &str) -> bool {
    match (Moment::from_text(moment), App::from_text("C")) {
        (Some(ia), Some(app)) => view.is_deleted_by_operator(&Key { ia, app }),
        _ => false,
    }
}

/// The two deletions, where the window shows them.
fn deleted_in(view: &View<'_>) -> u64 {
    let mut number: u64 = 0;
    if shows_deleted(view, "2024-01-02/08.00") {
        number = with_digit(number, 6);
    }
    if shows_deleted(view, "2024-01-03/08.00") {
        number = with_digit(number, 9);
    }
    number
}

/// How many rows the two plans have, as two digits.
fn sizes_in(view: &View<'_>) -> u64 {
    let ltp = view.ltp_size() as u64;
    ltp.saturating_mul(10).saturating_add(view.cp_size() as u64)
}

/// What the window shows; nothing where it lacks the calendar, or how many serials are issued.
pub(crate) fn shown_in(view: &View<'_>) -> Option<Shown> {
    if view.definitions().calendars.len() != 1 || view.issued() == 0 {
        return None;
    }
    Some([
        planned_serials_of(view.ltp()),
        current_serials_of(view.cp()),
        serials_of(view.lasts()),
        successors_in(view),
        predecessors_in(view),
        deleted_in(view),
        sizes_in(view),
    ])
}

/// What a window of the store shows for the need.
fn shown(alloc: Global, store: &mut ListStore, need: Need) -> Option<Shown> {
    match store.read_window(alloc, need) {
        Ok(view) => shown_in(&view),
        Err(_) => None,
    }
}

/// Tries each case on the store.
fn try_cases(rt: &impl Abort, alloc: Global, store: &mut ListStore, cases: &[Case]) {
    for (what, app, moment, wanted) in cases {
        let need = need_of(what, app, moment).expect(rt, "a need");
        assert!(rt;
            shown(alloc, store, need) == Some(*wanted),
            "{what} {app} {moment}"
        );
    }
}

/// A new store after the stream.
pub fn planned(rt: &impl Abort, alloc: Global, stream: &[u8]) -> ListStore {
    let mut store = ListStore::new(alloc);
    let mut reader = stream;
    let is_run = run(alloc, &mut store, &mut reader, &mut Vec::new(alloc)).is_ok();
    assert!(rt; is_run, "a run");
    store
}

#[test]
fn windows_show_what_their_needs_name(rt: HostRuntime) {
    let mut store = planned(&rt, rt.alloc(), PLAN);
    try_cases(&rt, rt.alloc(), &mut store, &CASES);
}

#[test]
fn daily_window_shows_three_rows(rt: HostRuntime) {
    let mut store = planned(&rt, rt.alloc(), TWO_DAYS);
    try_cases(&rt, rt.alloc(), &mut store, &TO_THE_END);
}
