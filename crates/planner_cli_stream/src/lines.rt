//! Lines of a reader, of which only the first bytes are kept.
ghost use Rattle.std.specs.Prelude.{◌≡◌, ◌≢◌, ◌⊎◌, ◌↔◌, ◌-◌, ◌<◌, ◌≤◌, length, max, take, true, vec_capacity};
ghost use Rattle.std.specs.Prelude.{All, IfErr, IfOk, OnOk, OnErr, IfSome, IsTrue};
ghost use Rattle.std.specs.Io.BufRead.{take_through, strip_last, DropsThrough};
ghost use Rattle.planner_cli_stream.specs.Buffers.{kept, ConsumesPart, MayGrow};
ghost use Rattle.planner_cli_stream.specs.Lines.{line_of};
ghost use Rattle.planner_cli_stream.specs.Readers.{HasFailed, IsBlamed, Measures};

use crate::readers::StreamReader;

/// Why a line could not be read.
#[derive(Clone, Copy, Debug, PartialEq, Eq)]
pub enum ReadFault {
    /// Memory was refused.
    Memory,
    /// The reader failed, or the stream is longer than a stream may be.
    Reader,
}

/// The length up to and including the first line feed, or the whole length.
fn len_through(bytes: &[u8]) -> usize
    ensures bound { result ≤ length bytes.now }
    ensures some { 0 < length bytes.now → 0 < result }
    ensures before { All (λ x. x ≢ 10) (take (result - 1) bytes.now) }
{
    let mut i = 0;
    while i < bytes.len() {
        if bytes[i] == b'\n' {
            return i + 1;
        }
        i += 1;
    }
    i
}

/// Appends `bytes` as far as there is room for them below `limit`.
#[tactic(auto, using(crate::proofs::Kept::kept_bound))]
fn keep(held: &mut Vec<u8>, limit: usize, bytes: &[u8]) -> Result<(), ReadFault>
    ensures ok { OnOk result (held.new.items ≡ kept limit held.old.items bytes.now) }
    ensures err { OnErr result (held.new.items ≡ held.old.items) }
    ensures cause { IfErr result (λ fault. fault ≡ ReadFault.Memory) }
    ensures bound { length held.new.items ≤ max limit (length held.old.items) }
    ensures grows { vec_capacity held.old ≤ vec_capacity held.new }
    // What has room for all that it may hold doesn't grow.
    ensures full { OnErr result (MayGrow (vec_capacity held.old) limit (length held.old.items)) }
{
    // A buffer past its limit keeps what it has. No buffer here is past it, and no caller has to prove that.
    let room = limit.saturating_sub(held.len()).min(bytes.len());
    match held.extend_from_slice(&bytes[..room]) {
        Ok(()) => Ok(()),
        Err(_) => Err(ReadFault::Memory),
    }
}

/// What was consumed of a line at once.
struct Consumed {
    /// How many bytes.
    len: usize,
    /// Whether they end with the line's end, or the reader has no more.
    is_done: bool,
}

/// Consumes what the reader shows of a line, and puts its first bytes into both buffers. `left` falls by as many as
/// were consumed.
fn consume_part<R: StreamReader>(
    reader: &mut R,
    left: &mut u64,
    head: &mut Vec<u8>,
    head_limit: usize,
    all: &mut Vec<u8>,
    all_limit: usize,
) -> Result<Consumed, ReadFault>
    ensures part { IfOk result (λ taken. ConsumesPart (R.remaining reader.old) (R.remaining reader.new)
        head_limit head.old.items head.new.items all_limit all.old.items all.new.items taken) }
    ensures head_bound { length head.new.items ≤ max head_limit (length head.old.items) }
    ensures all_bound { length all.new.items ≤ max all_limit (length all.old.items) }
    ensures some { IfOk result (λ taken. taken.is_done ≢ true → 0 < taken.len) }
    ensures falls { IfOk result (λ taken. left.new ≡ left.old - taken.len) }
    ensures stays { OnErr result (left.new ≡ left.old) }
    ensures measured { Measures (R.remaining reader.old) (R.remaining reader.new) left.old
        left.new }
    ensures head_grows { vec_capacity head.old ≤ vec_capacity head.new }
    ensures all_grows { vec_capacity all.old ≤ vec_capacity all.new }
    // The reader is blamed only where this call on it failed, and memory only where a buffer may have to grow.
    ensures blamed { IfErr result (λ fault. fault ≡ ReadFault.Reader
        → HasFailed R.fails reader.new) }
    ensures memory { IfErr result (λ fault. fault ≡ ReadFault.Memory
        → MayGrow (vec_capacity head.old) head_limit (length head.old.items)
        ⊎ MayGrow (vec_capacity all.old) all_limit (length all.old.items)) }
{
    let available = match reader.fill() {
        Ok(available) => available,
        Err(_) => return Err(ReadFault::Reader),
    };
    let end = len_through(available);
    let is_done = end == 0 || available[end - 1] == b'\n';
    keep(head, head_limit, &available[..end])?;
    keep(all, all_limit, &available[..end])?;
    reader.consume(end);
    *left = left.saturating_sub(end as u64);
    Ok(Consumed { len: end, is_done })
}

/// Consumes one line of a reader, with its line feed. `head` and `all` each get its bytes as far as they have room.
/// Returns whether there was a line. Every error of the reader is a fault. `left` is how many bytes of the stream may
/// still be read; where none is left, the stream is too long, and that is a fault of its reader.
pub fn read_line<R: StreamReader>(
    reader: &mut R,
    left: &mut u64,
    head: &mut Vec<u8>,
    head_limit: usize,
    all: &mut Vec<u8>,
    all_limit: usize,
) -> Result<bool, ReadFault>
    ensures some { IfOk result (λ any. IfSome (R.remaining reader.old) (λ xs. IsTrue any
        ↔ (0 < length xs))) }
    ensures rest { OnOk result (DropsThrough (R.remaining reader.old) (R.remaining reader.new) 10) }
    ensures head { OnOk result (IfSome (R.remaining reader.old)
        (λ xs. head.new.items ≡ kept head_limit head.old.items (take_through 10 xs))) }
    ensures all { OnOk result (IfSome (R.remaining reader.old)
        (λ xs. all.new.items ≡ kept all_limit all.old.items (take_through 10 xs))) }
    // At any reader, and also after a fault.
    ensures head_bound { length head.new.items ≤ max head_limit (length head.old.items) }
    ensures all_bound { length all.new.items ≤ max all_limit (length all.old.items) }
    ensures falls { IfOk result (λ any. IsTrue any → left.new ≤ left.old - 1) }
    ensures most { left.new ≤ left.old }
    ensures measured { Measures (R.remaining reader.old) (R.remaining reader.new) left.old
        left.new }
    ensures head_grows { vec_capacity head.old ≤ vec_capacity head.new }
    ensures all_grows { vec_capacity all.old ≤ vec_capacity all.new }
    ensures blamed { IfErr result (λ fault. fault ≡ ReadFault.Reader
        → IsBlamed R.fails reader.new left.new) }
    ensures memory { IfErr result (λ fault. fault ≡ ReadFault.Memory
        → MayGrow (vec_capacity head.old) head_limit (length head.old.items)
        ⊎ MayGrow (vec_capacity all.old) all_limit (length all.old.items)) }
{
    let mut total = 0usize;
    let most = *left;
    for _turn in 0..most {
        let Consumed { len, is_done } = consume_part(
            reader, left, head, head_limit, all, all_limit,
        )?;
        total = total.saturating_add(len);
        if is_done {
            return Ok(total > 0);
        }
    }
    Err(ReadFault::Reader)
}

/// Removes the last byte if it is `byte`.
#[tactic(auto, using(crate::proofs::Kept::strip_last_shorter))]
fn pop_if_last(bytes: &mut Vec<u8>, byte: u8)
    ensures items { bytes.new.items ≡ strip_last byte bytes.old.items }
    ensures shorter { length bytes.new.items ≤ length bytes.old.items }
    ensures capacity { vec_capacity bytes.new ≡ vec_capacity bytes.old }
{
    let n = bytes.len();
    if n > 0 && bytes[n - 1] == byte {
        bytes.truncate(n - 1);
    }
}

/// Cuts off the line feed that ends a line, and then one carriage return.
#[tactic(auto, unfolding(crate::specs::Lines::line_of))]
pub fn trim_line_end(line: &mut Vec<u8>)
    ensures line { line.new.items ≡ line_of line.old.items }
    ensures shorter { length line.new.items ≤ length line.old.items }
    ensures capacity { vec_capacity line.new ≡ vec_capacity line.old }
{
    pop_if_last(line, b'\n');
    pop_if_last(line, b'\r');
}
