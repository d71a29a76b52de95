//! What is at a name, and what became of it.

ghost use Rattle.std.specs.Prelude.{◌≡◌, ◌*◌, ◌↔◌, ◌<◌, ◌⊎◌, IsTrue, max};
ghost use Rattle.opcplan.specs.Looks.{IsFate, IsShorter, LacksPages, page_count, page_size};

/// How many bytes a file has at least that takes a while to open.
pub const LARGE: u64 = 0x400_0000;

/// A file, whatever its name.
#[derive(Clone, Copy, Debug, PartialEq, Eq)]
pub struct Inode {
    /// The device that it is on.
    pub device: u64,
    /// Its number there.
    pub number: u64,
}

/// What is at a name.
#[derive(Clone, Copy, Debug, PartialEq, Eq)]
pub enum Look {
    /// A file of so many bytes.
    File(Inode, u64),
    /// Nothing.
    Nothing,
    /// What the system doesn't say.
    Unknown,
}

/// What became of the file at a name.
#[derive(Clone, Copy, Debug, PartialEq, Eq)]
pub enum Fate {
    /// It is there, as far as the looks show.
    Same,
    /// Nothing is there.
    Gone,
    /// Another file is there.
    Other,
}

/// What became of the file that was at a name, by what is there now.
pub fn fate_between(before: Look, after: Look) -> Fate
    ensures { IsFate before after result }
{
    match (before, after) {
        (Look::File(_, _), Look::Nothing) => Fate::Gone,
        (Look::File(old, _), Look::File(new, _)) if old != new => Fate::Other,
        _ => Fate::Same,
    }
}

/// Whether the file that was at a name is there with fewer bytes than before.
pub fn is_shorter(before: Look, after: Look) -> bool
    ensures { IsTrue result ↔ IsShorter before after }
{
    match (before, after) {
        (Look::File(old, bytes), Look::File(new, found)) => old == new && found < bytes,
        _ => false,
    }
}

/// Whether there is a file at a name with fewer bytes than its pages take.
pub fn lacks_pages(now: Look, pages: u64) -> bool
    ensures { IsTrue result ↔ LacksPages now pages }
{
    match now {
        Look::File(_, found) => found < pages,
        _ => false,
    }
}

/// What was seen of the length of a file that grows while it is used.
#[derive(Clone, Copy, Debug, PartialEq, Eq)]
pub struct Growth {
    /// The most bytes that it had.
    pub longest: u64,
    /// Whether it had fewer bytes at some look than at one before.
    pub was_cut: bool,
}

impl Growth {
    /// The same after one more look, at which it has so many bytes.
    pub fn seen(self, bytes: u64) -> Growth
        ensures longest { result.longest ≡ max self.longest bytes }
        ensures cut { IsTrue result.was_cut ↔ (IsTrue self.was_cut ⊎ (bytes < self.longest)) }
    {
        Growth {
            longest: self.longest.max(bytes),
            was_cut: self.was_cut || bytes < self.longest,
        }
    }
}

/// How many bytes the pages of a database file take, by its first 32 bytes.
pub fn bytes_of_pages(head: &[u8; 32]) -> u64
    ensures { result ≡ page_size head.now * page_count head.now }
{
    let size = u64::from(head[16]) * 0x100 + u64::from(head[17]) * 0x1_0000;
    let count = u64::from(head[28]) * 0x100_0000
        + u64::from(head[29]) * 0x1_0000
        + u64::from(head[30]) * 0x100
        + u64::from(head[31]);
    size * count
}
