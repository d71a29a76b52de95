ghost use Rattle.std.specs.Prelude.{◌≡◌, ◌+◌, ◌≤◌, ◌<◌, ◌++◌, ◌∷◌, [], length};
ghost use Rattle.arrayvec.specs.ArrayVec.{array_vec_len};
ghost use Rattle.plan_listings.specs.Line.{left_in, right_in};

use arrayvec::ArrayVec;

// As many blanks as the widest name has places.
const BLANKS: [u8; 16] = [b' '; 16];

// Appends a part to the line.
pub(crate) fn append<const N: usize>(line: &mut ArrayVec<u8, N>, part: &[u8])
    requires { array_vec_len line.old + length part.now ≤ N }
    ensures items { line.new.items ≡ line.old.items ++ part.now }
    ensures len { array_vec_len line.new ≡ array_vec_len line.old + length part.now }
{
    match line.try_extend_from_slice(part) {
        Ok(()) => {}
        Err(_) => unreachable!(),
    }
}

// Appends a text, left-aligned in that many places and filled up with blanks.
pub(crate) fn append_left<const N: usize>(line: &mut ArrayVec<u8, N>, text: &[u8], width: usize)
    requires fits { length text.now ≤ width }
    requires room { array_vec_len line.old + width ≤ N }
    requires narrow { width ≤ 16 }
    ensures items { line.new.items ≡ line.old.items ++ left_in width text.now }
    ensures len { array_vec_len line.new ≡ array_vec_len line.old + width }
{
    append(line, text);
    append(line, &BLANKS[..width - text.len()]);
}

// Appends a text, right-aligned in that many places, with blanks before it.
pub(crate) fn append_right<const N: usize>(line: &mut ArrayVec<u8, N>, text: &[u8], width: usize)
    requires fits { length text.now ≤ width }
    requires room { array_vec_len line.old + width ≤ N }
    requires narrow { width ≤ 16 }
    ensures items { line.new.items ≡ line.old.items ++ right_in width text.now }
    ensures len { array_vec_len line.new ≡ array_vec_len line.old + width }
{
    append(line, &BLANKS[..width - text.len()]);
    append(line, text);
}
