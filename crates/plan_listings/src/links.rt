//! The line of a predecessor in a list.
ghost use Rattle.std.specs.Prelude.{◌≡◌, ◌+◌, ◌≤◌, ◌++◌};
ghost use Rattle.arrayvec.specs.ArrayVec.{array_vec_len};
ghost use Rattle.plan_listings.specs.Links.{link_text, within_text};

use crate::line::{append_left, append_right};
use arrayvec::ArrayVec;
use itoa::Buffer;
use work_calendars::{App, Within};

/// Appends the hours of a limit, or blanks where there is none.
fn append_within<const N: usize>(line: &mut ArrayVec<u8, N>, within: Option<Within>)
    requires { array_vec_len line.old + 4 ≤ N }
    ensures items { line.new.items ≡ line.old.items ++ within_text within }
    ensures len { array_vec_len line.new ≡ array_vec_len line.old + 4 }
{
    match within {
        Some(within) => {
            let mut digits = Buffer::new();
            append_right(line, digits.format(within.hours()).as_bytes(), 4);
        }
        None => append_right(line, b"", 4),
    }
}

/// The line of a predecessor in the list of an application, without its line feed: the application, the predecessor,
/// and the hours of the limit, if there is one.
pub fn link_line(app: &App, predecessor: &App, within: Option<Within>) -> [u8; 38]
    ensures { result ≡ link_text app.now predecessor.now within }
{
    let mut line: ArrayVec<u8, 38> = ArrayVec::new();
    append_left(&mut line, app.as_bytes(), 16);
    line.push(b' ');
    append_left(&mut line, predecessor.as_bytes(), 16);
    line.push(b' ');
    append_within(&mut line, within);
    match line.into_inner() {
        Ok(line) => line,
        Err(_) => unreachable!(),
    }
}
