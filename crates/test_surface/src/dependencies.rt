//! `external_dependencies`: lists of predecessors, rows, pairs, and the pairs that a change touches.
use external_dependencies::{Link, Links, Live, Pair, PairChange, Pairs, PlacedRow, Rows, Touch};
use occurrences::{Key, Row, Serial};
use std::alloc::Global;
use work_calendars::{App, Memory, Within};

// Here lists, rows and pairs are types of their own over vectors, which they are made from.
pub fn links(links: Vec<Link>) -> Links {
    Links::from_vec(links)
}

pub fn rows(rows: Vec<PlacedRow>) -> Rows {
    Rows::from_vec(rows)
}

pub fn pairs(pairs: Vec<Pair>) -> Pairs {
    Pairs::from_vec(pairs)
}

pub fn pair(successor: Serial, predecessor: Serial) -> Pair {
    Pair {
        successor,
        predecessor,
    }
}

pub fn live(alloc: Global, rows: &Rows) -> Result<Live, Memory> {
    Live::build(alloc, rows)
}

pub fn pair_change(removed: Pairs, added: Pairs) -> PairChange {
    PairChange { removed, added }
}

// Here a change has the whole rows that are made and withdrawn, and the serials of those that are opened or closed.
pub fn touch(
    made: Vec<Row>,
    withdrawn: Vec<Row>,
    opened: Vec<Serial>,
    closed: Vec<Serial>,
    lists: Vec<App>,
) -> Touch {
    Touch {
        made,
        withdrawn,
        opened,
        closed,
        lists,
    }
}

pub fn find_loop(alloc: Global, links: &Links) -> Result<Option<App>, Memory> {
    external_dependencies::find_loop(alloc, links)
}

pub fn nearest(live: &Live, key: &Key, app: &App, within: Option<Within>) -> Option<Serial> {
    external_dependencies::nearest(live, key, app, within)
}

pub fn resolve_all(alloc: Global, rows: &Rows, links: &Links) -> Result<Pairs, Memory> {
    external_dependencies::resolve_all(alloc, rows, links)
}

pub fn resolve_touched(
    alloc: Global,
    rows: &Rows,
    links: &Links,
    pairs: &Pairs,
    touch: &Touch,
) -> Result<PairChange, Memory> {
    external_dependencies::resolve_touched(alloc, rows, links, pairs, touch)
}
