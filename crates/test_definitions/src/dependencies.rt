use external_dependencies::{
    Followers, Link, Links, Live, Pair, PairChange, Pairs, PlacedRow, Rows, arrival_order,
    find_loop, find_loop_through, link_order, nearest, nearest_arrives_last, nearest_is_unique,
    pair_order, pairs_depend_on_set, pairs_have_no_loop, resolve_all, rising_is_unique,
};
use occurrences::{Key, Origin, Place, Reason, Row, Serial, Status};
use std::alloc::Global;
use std::fmt::Write;
use std::process::Abort;
use work_calendars::{App, Moment, Within};

pub(crate) fn app(rt: &impl Abort, name: &str) -> App {
    App::from_text(name).expect(rt, "a name")
}

pub(crate) fn serial(rt: &impl Abort, number: u32) -> Serial {
    Serial::new(number).expect(rt, "a serial")
}

// An entry of a list: a name, or a name, `/` and the hours of a limit.
fn entry(text: &str) -> Option<(App, Option<Within>)> {
    let mut parts = text.split('/');
    let name = App::from_text(parts.next()?)?;
    match parts.next() {
        Some(hours) => Some((name, Some(Within::from_hours(hours.parse().ok()?)?))),
        None => Some((name, None)),
    }
}

// One list of predecessors: an application, and the entries of its list.
fn push_list(rt: &impl Abort, links: &mut Vec<Link>, text: &str) {
    let mut words = text.split_whitespace();
    let owner = app(rt, words.next().expect(rt, "a list"));
    for word in words {
        let (predecessor, within) = entry(word).expect(rt, "an entry");
        links
            .push(Link {
                app: owner,
                predecessor,
                within,
            })
            .expect(rt, "memory");
    }
}

// The lists of a text, separated by `;`.
fn lists(rt: &impl Abort, alloc: Global, text: &str) -> Links {
    let mut links = Vec::new(alloc);
    for list in text.split(';') {
        push_list(rt, &mut links, list);
    }
    Links::from_vec(links)
}

#[test]
fn no_lists_have_no_loop(rt: HostRuntime) {
    let links = Links::new(rt.alloc());
    assert_eq!(rt; find_loop(rt.alloc(), &links).expect(&rt, "memory"), None);
}

// An application that names itself is on no loop; of two that name each other the least is.
#[test]
fn loops_of_lists(rt: HostRuntime) {
    for (text, wanted) in [("A B; B C; C B", Some("B")), ("A A", None)] {
        let links = lists(&rt, rt.alloc(), text);
        let found = find_loop(rt.alloc(), &links).expect(&rt, "memory");
        assert_eq!(rt; found.as_ref().map(|app| app.as_str()), wanted, "of {text}");
    }
}

// Where every loop passes one application, the least on a loop is found in the lists that it leads to.
#[test]
fn loops_through_one_application(rt: HostRuntime) {
    for (text, name, wanted) in [
        ("A B; B C; C A", "C", Some("A")),
        ("A B; B C C; C A B", "B", Some("A")),
        ("A A", "A", None),
        ("B C; C D", "B", None),
    ] {
        let links = lists(&rt, rt.alloc(), text);
        let found = find_loop_through(rt.alloc(), &links, &app(&rt, name)).expect(&rt, "memory");
        assert_eq!(rt; found.as_ref().map(|app| app.as_str()), wanted, "of {text}");
    }
}

fn numbered(rt: &impl Abort, alloc: Global, number: u32) -> App {
    let name = format!(in alloc; "A{number}").expect(rt, "memory");
    app(rt, &name)
}

// The applications A0 to A200000, each with the next one as its predecessor.
fn chain(rt: &impl Abort, alloc: Global) -> Links {
    let mut links = Vec::new(alloc);
    for number in 0..200_000u32 {
        let app = numbered(rt, alloc, number);
        let predecessor = numbered(rt, alloc, number.wrapping_add(1));
        links
            .push(Link {
                app,
                predecessor,
                within: None,
            })
            .expect(rt, "memory");
    }
    Links::from_vec(links)
}

// The components of lists are told apart in one pass: a search from each application would outlast the test.
#[test]
fn long_chain_has_no_loop(rt: HostRuntime) {
    let links = chain(&rt, rt.alloc());
    assert_eq!(rt; find_loop(rt.alloc(), &links).expect(&rt, "memory"), None);
    let first = numbered(&rt, rt.alloc(), 0);
    let found = find_loop_through(rt.alloc(), &links, &first).expect(&rt, "memory");
    assert_eq!(rt; found, None);
}

// The links, as `APP PREDECESSOR;`.
fn shown_links(rt: &impl Abort, alloc: Global, links: &[Link]) -> String {
    let mut text = String::new(alloc);
    for link in links {
        let app = link.app.as_str();
        let predecessor = link.predecessor.as_str();
        write!(text, "{app} {predecessor};").expect(rt, "memory");
    }
    text
}

#[test]
fn lists_are_kept_in_order_and_once(rt: HostRuntime) {
    let links = lists(&rt, rt.alloc(), "B C A; A B; B A");
    let shown = shown_links(&rt, rt.alloc(), links.as_slice());
    assert_eq!(rt; shown.as_str(), "A B;B A;B C;");
    let copy = links.clone().expect(&rt, "memory");
    let copied = shown_links(&rt, rt.alloc(), copy.as_slice());
    assert_eq!(rt; copied.as_str(), "A B;B A;B C;");
    assert_eq!(rt; links.into_vec().len(), 3);
}

// The list of an application, of these lists.
fn list_text(rt: &impl Abort, alloc: Global, name: &str) -> String {
    let links = lists(rt, alloc, "B C A; A B; D A");
    shown_links(rt, alloc, links.list(&app(rt, name)))
}

// A link is one of these with its own limit, and no other.
#[test]
fn links_are_told_with_their_limits(rt: HostRuntime) {
    let links = lists(&rt, rt.alloc(), "A B/24 C");
    for (text, is) in [
        ("A B/24", true),
        ("A B/23", false),
        ("A B", false),
        ("A C", true),
        ("A C/1", false),
        ("A D", false),
    ] {
        let asked = lists(&rt, rt.alloc(), text);
        for link in asked.as_slice() {
            assert_eq!(rt; links.contains(link), is, "of {text}");
        }
    }
}

#[test]
fn links_of_an_application(rt: HostRuntime) {
    for (name, list) in [("A", "A B;"), ("B", "B A;B C;"), ("C", ""), ("E", "")] {
        assert_eq!(rt; list_text(&rt, rt.alloc(), name).as_str(), list);
    }
}

// The minutes from the first to 2024-01-01/00.00.
const FIRST: u32 = 19723 * 1440;

// L and H are the long-term plan and history, O and P the deletions by an operator and by a plan, and any other
// letter is a status of the current plan.
fn place(letter: &str) -> Option<Place> {
    match letter {
        "L" => Some(Place::LongTerm),
        "H" => Some(Place::History),
        "O" => Some(Place::Deleted(Reason::Operator)),
        "P" => Some(Place::Deleted(Reason::Plan)),
        _ => Some(Place::Current(Status::from_letter(*letter.as_bytes().first()?)?)),
    }
}

// An application and the minutes from 2024-01-01/00.00 on.
fn key(app: &str, minutes: &str) -> Option<Key> {
    let minutes: u32 = minutes.parse().ok()?;
    Some(Key {
        ia: Moment::from_number(minutes.checked_add(FIRST)?)?,
        app: App::from_text(app)?,
    })
}

// A row: its serial, application, minutes and place.
fn row(text: &str) -> Option<PlacedRow> {
    let mut words = text.split_whitespace();
    let number: u32 = words.next()?.parse().ok()?;
    let key = key(words.next()?, words.next()?)?;
    Some(PlacedRow {
        row: Row {
            key,
            serial: Serial::new(number)?,
            deadline: key.ia,
            origin: Origin::Added,
        },
        place: place(words.next()?)?,
    })
}

// The rows of a text, separated by `;`.
pub(crate) fn rows(rt: &impl Abort, alloc: Global, text: &str) -> Rows {
    let mut rows = Vec::new(alloc);
    for part in text.split(';') {
        rows.push(row(part).expect(rt, "a row"))
            .expect(rt, "memory");
    }
    Rows::from_vec(rows)
}

// The pairs, as `SUCCESSOR-PREDECESSOR;`.
fn shown(rt: &impl Abort, alloc: Global, pairs: &[Pair]) -> String {
    let mut text = String::new(alloc);
    for pair in pairs {
        let successor = pair.successor.get();
        let predecessor = pair.predecessor.get();
        write!(text, "{successor}-{predecessor};").expect(rt, "memory");
    }
    text
}

// The pairs from scratch of rows and lists.
fn resolved(rt: &impl Abort, alloc: Global, row_text: &str, list_text: &str) -> String {
    let rows = rows(rt, alloc, row_text);
    let links = lists(rt, alloc, list_text);
    let pairs = resolve_all(alloc, &rows, &links).expect(rt, "memory");
    shown(rt, alloc, pairs.as_slice())
}

// Rows, lists and the pairs that they make: two days of two applications, a predecessor in history, a predecessor
// before it is deleted, after, and with another added; limits; who is open; and a ring of nine.
#[test]
fn pairs_from_scratch(rt: HostRuntime) {
    for (rows, lists, pairs) in [
        (
            "1 A 480 L; 2 B 480 L; 3 A 1920 L; 4 B 1920 L",
            "A B",
            "1-2;3-4;",
        ),
        (
            "4 B 1920 L; 1 A 480 H; 3 A 1920 L; 2 B 480 W",
            "A A; B A",
            "2-1;3-1;4-3;",
        ),
        (
            "1 A 480 L; 2 B 480 L; 3 A 1920 L; 4 B 1920 L",
            "A A; B A",
            "2-1;3-1;4-3;",
        ),
        (
            "1 A 480 O; 2 B 480 L; 3 A 1920 L; 4 B 1920 L",
            "A A; B A",
            "4-3;",
        ),
        (
            "1 A 480 O; 2 B 480 L; 3 A 1920 L; 4 B 1920 L; 5 A 420 L",
            "A A; B A",
            "2-5;3-5;4-3;",
        ),
        (
            "1 A 480 L; 2 B 540 L; 3 B 541 L; 4 B 542 S",
            "B A/1",
            "2-1;",
        ),
        ("1 A 480 L; 2 B 541 L", "B A", "2-1;"),
        (
            "1 A 480 H; 2 B 480 S; 3 B 481 E; 4 B 482 C; 5 B 483 D; 6 B 484 H; 7 B 485 P; 8 B 486 W",
            "B A NONE",
            "8-1;",
        ),
        (
            "1 A 480 L; 2 B 480 L; 3 C 480 L; 4 D 480 L; 5 E 480 L; 6 F 480 L; 7 G 480 L; 8 H 480 L; 9 I 480 L",
            "A B; B C; C D; D E; E F; F G; G H; H I; I A B C D E F G H I",
            "1-2;2-3;3-4;4-5;5-6;6-7;7-8;8-9;9-1;9-2;9-3;9-4;9-5;9-6;9-7;9-8;",
        ),
    ] {
        let found = resolved(&rt, rt.alloc(), rows, lists);
        assert_eq!(rt; found.as_str(), pairs, "of {rows} by {lists}");
    }
}

#[test]
fn rows_in_and_out(rt: HostRuntime) {
    let rows = rows(&rt, rt.alloc(), "1 A 480 L; 2 B 480 L; 3 A 1920 D");
    assert_eq!(rt; rows.as_slice().len(), 3);
    let live = Live::build(rt.alloc(), &rows).expect(&rt, "memory");
    assert_eq!(rt; live.as_slice().len(), 2);
    assert_eq!(rt; rows.into_vec().len(), 3);
}

#[test]
fn nothing_makes_no_pairs(rt: HostRuntime) {
    let alloc = rt.alloc();
    let none = resolve_all(alloc, &Rows::new(alloc), &Links::new(alloc)).expect(&rt, "memory");
    assert_eq!(rt; none.as_slice(), Pairs::new(alloc).as_slice());
    assert_eq!(rt; none.into_vec().len(), 0);
}

#[test]
fn laws_may_be_called(_rt: HostRuntime) {
    nearest_is_unique();
    nearest_arrives_last();
    pairs_depend_on_set();
    pairs_have_no_loop();
    rising_is_unique();
    pair_order();
    link_order();
    arrival_order();
}

// The nearest predecessor of an application's occurrence in another, with a limit or without; 0 where there is none.
fn nearest_of(live: &Live, text: &str) -> Option<u32> {
    let mut words = text.split_whitespace();
    let key = key(words.next()?, words.next()?)?;
    let (app, within) = entry(words.next()?)?;
    Some(nearest(live, &key, &app, within).map_or(0, |serial| serial.get()))
}

#[test]
fn nearest_by_place_and_arrival(rt: HostRuntime) {
    let text = "1 A 480 H; 2 A 1440 D; 3 A 1920 E; 4 C 480 D; 5 AB 480 L";
    let live = Live::build(rt.alloc(), &rows(&rt, rt.alloc(), text)).expect(&rt, "memory");
    assert_eq!(rt; live.as_slice().len(), 3);
    for (asked, serial) in [
        ("B 1920 A", 3),
        ("B 1919 A", 1),
        ("B 480 A", 1),
        ("B 479 A", 0),
        ("A 1920 A", 1),
        ("A 1921 A", 3),
        ("A 480 A", 0),
        ("B 1920 A/1", 3),
        ("B 1919 A/24", 1),
        ("B 1919 A/23", 0),
        ("A 1920 A/24", 1),
        ("A 1920 A/23", 0),
        ("B 1440 C", 0),
        ("B 1440 AB", 5),
        ("B 1440 B", 0),
    ] {
        assert_eq!(rt; nearest_of(&live, asked), Some(serial), "of {asked}");
    }
}

// The pairs of these successors and predecessors.
fn pairs(rt: &impl Abort, alloc: Global, numbers: &[(u32, u32)]) -> Pairs {
    let mut pairs = Vec::new(alloc);
    for (successor, predecessor) in numbers {
        let pair = Pair {
            successor: serial(rt, *successor),
            predecessor: serial(rt, *predecessor),
        };
        pairs.push(pair).expect(rt, "memory");
    }
    Pairs::from_vec(pairs)
}

#[test]
fn pairs_of_one_successor(rt: HostRuntime) {
    let pairs = pairs(&rt, rt.alloc(), &[(3, 1), (2, 1), (4, 3), (4, 1)]);
    for (successor, wanted) in [(1, ""), (2, "2-1;"), (3, "3-1;"), (4, "4-1;4-3;")] {
        let found = pairs.of_successor(serial(&rt, successor));
        assert_eq!(rt; shown(&rt, rt.alloc(), found).as_str(), wanted);
    }
}

// How many follow one predecessor, and the least of them; 0 where there is none.
fn following(followers: &Followers, predecessor: u32) -> Option<(usize, u32)> {
    let found = followers.of_predecessor(Serial::new(predecessor)?);
    Some((
        found.len(),
        found.first().map_or(0, |one| one.successor.get()),
    ))
}

#[test]
fn pairs_of_one_predecessor(rt: HostRuntime) {
    let pairs = pairs(&rt, rt.alloc(), &[(3, 1), (2, 1), (4, 3), (4, 1)]);
    let followers = Followers::build(rt.alloc(), &pairs).expect(&rt, "memory");
    for (predecessor, wanted) in [(1, (3, 2)), (2, (0, 0)), (3, (1, 4)), (4, (0, 0))] {
        assert_eq!(rt; following(&followers, predecessor), Some(wanted));
    }
}

// What goes from the first pairs to the second, and what comes.
fn changed(rt: &impl Abort, alloc: Global, old: &Pairs, new: &Pairs) -> (String, String) {
    let change = PairChange::between(alloc, old, new).expect(rt, "memory");
    (
        shown(rt, alloc, change.removed.as_slice()),
        shown(rt, alloc, change.added.as_slice()),
    )
}

// A row is deleted, and one that arrives earlier is added in its place.
#[test]
fn pairs_that_go_and_come(rt: HostRuntime) {
    let old = pairs(&rt, rt.alloc(), &[(2, 1), (3, 1), (4, 3)]);
    let new = pairs(&rt, rt.alloc(), &[(2, 5), (3, 5), (4, 3)]);
    let (removed, added) = changed(&rt, rt.alloc(), &old, &new);
    assert_eq!(rt; removed.as_str(), "2-1;3-1;");
    assert_eq!(rt; added.as_str(), "2-5;3-5;");
}

#[test]
fn equal_pairs_change_nothing(rt: HostRuntime) {
    let old = pairs(&rt, rt.alloc(), &[(2, 1), (3, 1), (4, 3)]);
    let (removed, added) = changed(&rt, rt.alloc(), &old, &old.clone().expect(&rt, "memory"));
    assert_eq!(rt; removed.as_str(), "");
    assert_eq!(rt; added.as_str(), "");
}
