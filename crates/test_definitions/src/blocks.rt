// Blocks that no line feed ends, accepted and refused: in a stream each block has one. What they give comes from the
// format's own words.
use app_definitions::{
    Block, BlockFault, ByName, Kind, LONGEST_BLOCK, Predecessor, Predecessors, read_block,
    read_predecessors,
};
use std::alloc::Global;
use std::fmt::Write;
use std::process::Abort;
use work_calendars::Name;

// 0 where the block is accepted, the number of the faulty record where it isn't, 99 for want of memory, and 98 for a
// block that no caller may hand in.
fn fault(alloc: Global, kind: Kind, text: &[u8]) -> usize {
    if text.len() > LONGEST_BLOCK {
        return 98;
    }
    match read_block(alloc, kind, text) {
        Ok(_) => 0,
        Err(BlockFault::Faulty { number }) => number,
        Err(BlockFault::Memory) => 99,
    }
}

fn kind_of(letter: u8) -> Kind {
    match letter {
        b'A' => Kind::Applications,
        b'C' => Kind::Calendars,
        b'P' => Kind::Periods,
        b'L' => Kind::Predecessors,
        b'R' => Kind::RunCycles,
        _ => Kind::Options,
    }
}

// The fault of a row and the one it wants: the letter of a kind, a digit, a colon and a block. Any other row gives two
// that differ.
fn fault_and_want(alloc: Global, row: &[u8]) -> (usize, usize) {
    match row {
        [letter, digit, b':', text @ ..] => (
            fault(alloc, kind_of(*letter), text),
            digit.wrapping_sub(b'0') as usize,
        ),
        _ => (97, 0),
    }
}

#[test]
fn blocks_without_a_last_line_feed(rt: HostRuntime) {
    let table = b"A0:A,P,|\
        A0:A,A,\rB,A,\r|\
        A0:\xEF\xBB\xBF|\
        A0:\r\n\n\r|\
        A2:A,A,\rB,X,\r|\
        L0:ABCDEFGHIJKLMNOP,ABCDEFGHIJKLMNOP|\
        L0:\xEF\xBB\xBF\"A\",\"B\"\nA,\"C|\
        L2:A,B\rA,B\r|\
        L0:A,B,1\nA,C,9999\nA,D,\nD,A,24|\
        L0:A,B,\nA,C,1|\
        L1:A,B,0|\
        L1:A,B,10000|\
        L1:A,B,01|\
        L1:A,B,+1|\
        L1:A|\
        L1:A,B,1,1|\
        L2:A,B,1\nB,C|\
        L2:A,B,\nB,C|\
        L2:A,B\nB,C,1|\
        L2:A,B,1\nA,B,2|\
        L3:A,B,1\nA,C,\nA,D,10000|\
        C0:ABCDEFGHIJKLMNOP,2024-02-29,FREE|\
        P0:ABCDEFGH,W,2071-12-31,999|\
        R0:ABCDEFGHIJKLMNOP,R,N,P,E,1,2024-01-01,2071-12-31,08.00,0,17.00|\
        R2:A,R,N,P,E,1,2024-01-01,,08.00,0,17.00\rA,R,X,P,E,1,2024-01-01,,08.00,,\r|\
        O0:max_extension_hours = 1|\
        O1:\xFF";
    let mut rows: usize = 0;
    for row in table.split(|byte| *byte == b'|') {
        let (found, want) = fault_and_want(rt.alloc(), row);
        assert_eq!(rt; found, want, "{row:?}");
        rows = rows.wrapping_add(1);
    }
    assert_eq!(rt; rows, 27);
}

// As many records as a block may have, all of one pair; the second is the first that is faulty.
#[test]
fn longest_block_of_one_pair(rt: HostRuntime) {
    let mut text = Vec::new(rt.alloc());
    for _ in 0..65_536u32 {
        text.extend_from_slice(b"A,A\n").expect(&rt, "memory");
    }
    assert_eq!(rt; text.len(), LONGEST_BLOCK);
    assert_eq!(rt; fault(rt.alloc(), Kind::Predecessors, &text), 2);
}

// The lists that a block gives, or none where it is refused.
fn lists(alloc: Global, text: &[u8]) -> Option<ByName<Predecessors>> {
    if text.len() > LONGEST_BLOCK {
        return None;
    }
    match read_predecessors(alloc, text) {
        Ok(Block::Predecessors(lists)) => Some(lists),
        _ => None,
    }
}

// The predecessors, as `NAME;`, or `NAME/HOURS;` where there is a limit.
fn shown(rt: &impl Abort, alloc: Global, listed: &[Predecessor]) -> String {
    let mut text = String::new(alloc);
    for predecessor in listed {
        let name = predecessor.name.as_str();
        match predecessor.within {
            Some(within) => {
                let hours = within.hours();
                write!(text, "{name}/{hours};").expect(rt, "memory");
            }
            None => write!(text, "{name};").expect(rt, "memory"),
        }
    }
    text
}

// The list of an application, of a block.
fn list_text(rt: &impl Abort, alloc: Global, text: &[u8], app: &str) -> String {
    let lists = lists(alloc, text).expect(rt, "a good block");
    let app = Name::from_text(app).expect(rt, "a name");
    match lists.get(&app) {
        Some(list) => shown(rt, alloc, list.as_slice()),
        None => String::new(alloc),
    }
}

#[test]
fn limits_of_predecessors(rt: HostRuntime) {
    let limited = b"A,D,\nA,C,9999\nD,A,24\nA,B,1";
    assert_eq!(rt;
        list_text(&rt, rt.alloc(), limited, "A").as_str(),
        "B/1;C/9999;D;"
    );
    assert_eq!(rt; list_text(&rt, rt.alloc(), limited, "D").as_str(), "A/24;");
    assert_eq!(rt; list_text(&rt, rt.alloc(), limited, "B").as_str(), "");
    let unlimited = b"A,C\nA,B";
    assert_eq!(rt; list_text(&rt, rt.alloc(), unlimited, "A").as_str(), "B;C;");
}
