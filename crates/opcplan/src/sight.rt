//! What can be seen of the files of a run. It holds the runtime, and `Sight` lets nothing else be done with it.

use crate::looks::{Inode, Look};
use std::fs::{self, File};
use std::io::{self, ErrorKind, Read};
use std::os::unix::fs::MetadataExt;

/// What a run may ask of its files besides what its database does with them: it looks at them alone.
pub trait Sight {
    /// What is at FILE, also through links.
    fn file(&self) -> Look;

    /// The first bytes of FILE; none if they can't be read.
    fn head(&self) -> Option<[u8; 32]>;

    /// Finds FILE-wal, next to the file that FILE leads to, and opens it.
    fn find_log(&mut self);

    /// What is at FILE-wal, once it was found.
    fn log(&self) -> Look;

    /// The length of the log that was opened, whatever has its name now; none if the system doesn't say.
    fn bytes_of_log(&self) -> Option<u64>;
}

/// Looks at the file at a path, and at its log.
#[derive(Drop)]
pub struct SightOf<'a> {
    rt: &'a HostRuntime,
    path: &'a str,
    log_path: Option<String>,
    log_file: Option<File>,
}

impl<'a> SightOf<'a> {
    /// One of the file at a path.
    pub fn new(rt: &'a HostRuntime, path: &'a str) -> SightOf<'a> {
        SightOf {
            rt,
            path,
            log_path: None,
            log_file: None,
        }
    }
}

impl Sight for SightOf<'_> {
    fn file(&self) -> Look {
        look(self.rt, self.path)
    }

    fn head(&self) -> Option<[u8; 32]> {
        let mut head = [0u8; 32];
        match read_head(self.rt, self.path, &mut head) {
            Ok(()) => Some(head),
            Err(_) => None,
        }
    }

    fn find_log(&mut self) {
        if let Ok(path) = path_of_log(self.rt, self.path) {
            self.log_file = File::open(self.rt, path.as_str()).ok();
            self.log_path = Some(path);
        }
    }

    fn log(&self) -> Look {
        match &self.log_path {
            Some(path) => look(self.rt, path.as_str()),
            None => Look::Unknown,
        }
    }

    fn bytes_of_log(&self) -> Option<u64> {
        match &self.log_file {
            Some(file) => match file.metadata() {
                Ok(found) => Some(found.len()),
                Err(_) => None,
            },
            None => None,
        }
    }
}

/// What is at a path, also through links. No memory is allocated.
fn look(rt: &HostRuntime, path: &str) -> Look {
    match fs::metadata(rt, path) {
        Ok(found) => Look::File(
            Inode {
                device: found.dev(),
                number: found.ino(),
            },
            found.len(),
        ),
        Err(error) => match error.kind() {
            ErrorKind::NotFound | ErrorKind::NotADirectory => Look::Nothing,
            _ => Look::Unknown,
        },
    }
}

/// Reads the first bytes of a file.
fn read_head(rt: &HostRuntime, path: &str, head: &mut [u8; 32]) -> io::Result<()> {
    File::open(rt, path)?.read_exact(head)
}

/// The path of the log: next to the file that the path leads to.
fn path_of_log(rt: &HostRuntime, path: &str) -> io::Result<String> {
    let real = fs::canonicalize(rt, path)?;
    Ok(format!(in rt.alloc(); "{}-wal", real.as_str())?)
}
