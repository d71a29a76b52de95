//! The list of streams.

/// The line ends that a stream is tried with.
#[derive(Clone, Copy, Debug, PartialEq, Eq)]
pub enum Ends {
    /// Those of its file alone.
    Own,
    /// Those, and then a carriage return before each line feed.
    Both,
}

/// The stores that a stream is tried over.
#[derive(Clone, Copy, Debug, PartialEq, Eq)]
pub enum Stores {
    /// Lists alone.
    Lists,
    /// Lists, and tables in memory.
    Both,
    /// These, and files that stop.
    Stops,
    /// These, and files that stop in a migration.
    Migrated,
}

/// A line of the list.
#[derive(Clone, Copy, Debug)]
pub struct Listed<'a> {
    /// What its files are called.
    pub name: &'a str,
    /// The exit status that it has to end with.
    pub status: u8,
    /// The line ends that it is tried with.
    pub ends: Ends,
    /// The stores that it is tried over.
    pub stores: Stores,
}

/// Whether a line of the list is blank or a remark, which begins with `#`.
pub fn is_remark(line: &str) -> bool {
    let text = line.trim();
    text.is_empty() || text.starts_with('#')
}

impl<'a> Listed<'a> {
    /// Reads `NAME STATUS own` or `NAME STATUS both`, with `lists` behind it where the stream is tried over lists alone,
    /// `stops` where it is tried over files that stop as well, or `migrated` where its plan is migrated over such files,
    /// too; `None` where the line is none of these.
    pub fn from_line(line: &'a str) -> Option<Listed<'a>> {
        let mut words = line.split_whitespace();
        let name = words.next()?;
        let status = words.next()?.parse::<u8>().ok()?;
        let ends = match words.next()? {
            "own" => Ends::Own,
            "both" => Ends::Both,
            _ => return None,
        };
        let stores = match words.next() {
            None => Stores::Both,
            Some("lists") => Stores::Lists,
            Some("stops") => Stores::Stops,
            Some("migrated") => Stores::Migrated,
            Some(_) => return None,
        };
        match words.next() {
            Some(_) => None,
            None => Some(Listed {
                name,
                status,
                ends,
                stores,
            }),
        }
    }
}
