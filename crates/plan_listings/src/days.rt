//! The line of a named occurrence.
ghost use Rattle.std.specs.Prelude.{◌≡◌, ◌+◌, ◌≤◌, ◌++◌, ℕ, List};
ghost use Rattle.arrayvec.specs.ArrayVec.{array_vec_len};
ghost use Rattle.work_calendars.specs.Spelling.{SpellsDay, SpellsMinute};
ghost use Rattle.plan_listings.specs.Days.{IsDaysLine};

use crate::line::{append, append_left};
use arrayvec::ArrayVec;
use run_cycles::Named;
use work_calendars::{Day, Minute};

/// Appends a date.
pub(crate) fn append_day<const N: usize>(line: &mut ArrayVec<u8, N>, day: Day)
    requires { array_vec_len line.old + 10 ≤ N }
    ensures items { (text : List ℕ) × SpellsDay text day
        × (line.new.items ≡ line.old.items ++ text) }
    ensures len { array_vec_len line.new ≡ array_vec_len line.old + 10 }
{
    let mut text = [0; 10];
    day.write_text(&mut text);
    append(line, &text);
}

/// Appends a time.
pub(crate) fn append_minute<const N: usize>(line: &mut ArrayVec<u8, N>, minute: Minute)
    requires { array_vec_len line.old + 5 ≤ N }
    ensures items { (text : List ℕ) × SpellsMinute text minute
        × (line.new.items ≡ line.old.items ++ text) }
    ensures len { array_vec_len line.new ≡ array_vec_len line.old + 5 }
{
    let mut text = [0; 5];
    minute.write_text(&mut text);
    append(line, &text);
}

/// The line of a named occurrence, without its line feed: date, input arrival time, run cycle, and the deadline's date
/// and time.
pub fn days_line(named: &Named) -> [u8; 42]
    ensures { IsDaysLine named.now result }
{
    let mut line: ArrayVec<u8, 42> = ArrayVec::new();
    append_day(&mut line, named.day);
    line.push(b' ');
    append_minute(&mut line, named.time);
    line.push(b' ');
    append_left(&mut line, named.run_cycle.as_bytes(), 8);
    line.push(b' ');
    append_day(&mut line, named.deadline.day());
    line.push(b' ');
    append_minute(&mut line, named.deadline.minute());
    match line.into_inner() {
        Ok(line) => line,
        Err(_) => unreachable!(),
    }
}
