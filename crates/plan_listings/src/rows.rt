//! Lines of rows and of dependencies.
ghost use Rattle.std.specs.Prelude.{◌≡◌, ◌+◌, ◌%◌, ◌≤◌, ◌++◌, ℕ, List};
ghost use Rattle.arrayvec.specs.ArrayVec.{array_vec_len};
ghost use Rattle.work_calendars.specs.Spelling.{digit};
ghost use Rattle.plan_listings.specs.Row.{AreTimesText, IsEndText, IsMarkedText, IsMomentText, IsPairText, IsRowText};
ghost use Rattle.plan_listings.specs.Row.{front_text, name_text, origin_text, serial_text};

use crate::days::{append_day, append_minute};
use crate::line::{append, append_left};
use arrayvec::ArrayVec;
use occurrences::{Origin, Row, Serial};
use work_calendars::Moment;

/// The last decimal digit of a number.
fn digit(number: u32) -> u8
    ensures { result ≡ digit (number % 10) }
{
    b'0' + (number % 10) as u8
}

/// Appends a serial's nine digits.
fn append_serial<const N: usize>(line: &mut ArrayVec<u8, N>, serial: Serial)
    requires { array_vec_len line.old + 9 ≤ N }
    ensures items { line.new.items ≡ line.old.items ++ serial_text serial }
    ensures len { array_vec_len line.new ≡ array_vec_len line.old + 9 }
{
    let number = serial.get();
    let digits = [
        digit(number / 100_000_000),
        digit(number / 10_000_000),
        digit(number / 1_000_000),
        digit(number / 100_000),
        digit(number / 10_000),
        digit(number / 1_000),
        digit(number / 100),
        digit(number / 10),
        digit(number),
    ];
    append(line, &digits);
}

/// Appends a row's serial and application.
fn append_name<const N: usize>(line: &mut ArrayVec<u8, N>, row: &Row)
    requires { array_vec_len line.old + 26 ≤ N }
    ensures items { line.new.items ≡ line.old.items ++ name_text row.now }
    ensures len { array_vec_len line.new ≡ array_vec_len line.old + 26 }
{
    append_serial(line, row.serial);
    line.push(b' ');
    append_left(line, row.key.app.as_bytes(), 16);
}

/// Appends where a row comes from, and its run cycle.
fn append_origin<const N: usize>(line: &mut ArrayVec<u8, N>, origin: Origin)
    requires { array_vec_len line.old + 10 ≤ N }
    ensures items { line.new.items ≡ line.old.items ++ origin_text origin }
    ensures len { array_vec_len line.new ≡ array_vec_len line.old + 10 }
{
    match origin {
        Origin::Generated(name) => {
            append(line, b"G ");
            append_left(line, name.as_bytes(), 8);
        }
        Origin::Added => {
            append(line, b"A ");
            append_left(line, b"", 8);
        }
    }
}

/// Appends a moment's date and time.
fn append_moment<const N: usize>(line: &mut ArrayVec<u8, N>, moment: Moment)
    requires { array_vec_len line.old + 16 ≤ N }
    ensures items { (text : List ℕ) × IsMomentText moment text
        × (line.new.items ≡ line.old.items ++ text) }
    ensures len { array_vec_len line.new ≡ array_vec_len line.old + 16 }
{
    append_day(line, moment.day());
    line.push(b' ');
    append_minute(line, moment.minute());
}

/// Appends a row's serial, application, origin and run cycle.
fn append_front<const N: usize>(line: &mut ArrayVec<u8, N>, row: &Row)
    requires { array_vec_len line.old + 37 ≤ N }
    ensures items { line.new.items ≡ line.old.items ++ front_text row.now }
    ensures len { array_vec_len line.new ≡ array_vec_len line.old + 37 }
{
    append_name(line, row);
    line.push(b' ');
    append_origin(line, row.origin);
}

/// Appends a row's input arrival and deadline.
fn append_times<const N: usize>(line: &mut ArrayVec<u8, N>, row: &Row)
    requires { array_vec_len line.old + 33 ≤ N }
    ensures items { (text : List ℕ) × AreTimesText row.now text
        × (line.new.items ≡ line.old.items ++ text) }
    ensures len { array_vec_len line.new ≡ array_vec_len line.old + 33 }
{
    append_moment(line, row.key.ia);
    line.push(b' ');
    append_moment(line, row.deadline);
}

/// Appends a row.
fn append_row<const N: usize>(line: &mut ArrayVec<u8, N>, row: &Row)
    requires { array_vec_len line.old + 71 ≤ N }
    ensures items { (text : List ℕ) × IsRowText row.now text
        × (line.new.items ≡ line.old.items ++ text) }
    ensures len { array_vec_len line.new ≡ array_vec_len line.old + 71 }
{
    append_front(line, row);
    line.push(b' ');
    append_times(line, row);
}

/// Appends an end of a dependency.
fn append_end<const N: usize>(line: &mut ArrayVec<u8, N>, row: &Row)
    requires { array_vec_len line.old + 43 ≤ N }
    ensures items { (text : List ℕ) × IsEndText row.now text
        × (line.new.items ≡ line.old.items ++ text) }
    ensures len { array_vec_len line.new ≡ array_vec_len line.old + 43 }
{
    append_name(line, row);
    line.push(b' ');
    append_moment(line, row.key.ia);
}

/// The line of a row of the long-term plan: serial, application, origin, run cycle, input arrival and deadline.
pub fn row_line(row: &Row) -> [u8; 71]
    ensures { IsRowText row.now result }
{
    let mut line: ArrayVec<u8, 71> = ArrayVec::new();
    append_row(&mut line, row);
    match line.into_inner() {
        Ok(line) => line,
        Err(_) => unreachable!(),
    }
}

/// The line of a row and the letter of its status, or of the reason for which it was deleted.
pub fn marked_line(row: &Row, letter: u8) -> [u8; 73]
    ensures { IsMarkedText row.now letter result }
{
    let mut line: ArrayVec<u8, 73> = ArrayVec::new();
    append_row(&mut line, row);
    line.push(b' ');
    line.push(letter);
    match line.into_inner() {
        Ok(line) => line,
        Err(_) => unreachable!(),
    }
}

/// The line of a dependency: serial, application and input arrival of the successor, then of the predecessor.
pub fn pair_line(successor: &Row, predecessor: &Row) -> [u8; 87]
    ensures { IsPairText successor.now predecessor.now result }
{
    let mut line: ArrayVec<u8, 87> = ArrayVec::new();
    append_end(&mut line, successor);
    line.push(b' ');
    append_end(&mut line, predecessor);
    match line.into_inner() {
        Ok(line) => line,
        Err(_) => unreachable!(),
    }
}
