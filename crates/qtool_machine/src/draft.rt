//! A file that is written beside its place, and takes it when it is whole.

use crate::client_streams::{STANDARD, Sink};
use std::fs::{self, File, OpenOptions, Permissions};
use std::io::{self, BufWriter, ErrorKind, Write};
use std::os::unix::fs::{MetadataExt, PermissionsExt};
use std::random::RandomSource;

/// As much of a file is gathered before it is written, in bytes.
const FILE_BUFFER: usize = 262_144;

/// So many numbers are there for the names of drafts.
const NUMBERS: u64 = 1_000_000_000;

/// So many names are tried for a draft.
const TRIES: u64 = 64;

/// A file that is written. What has a place of its own in the folder, as a regular file, is written beside it.
#[derive(Drop)]
pub struct Draft {
    out: BufWriter<Sink>,
    beside: Option<Beside>,
}

/// Under which name a draft is written, and which it takes.
#[derive(Drop)]
struct Beside {
    own: String,
    place: String,
}

/// Where a symbolic link leads to a regular file, or the link itself where it leads nowhere. A link of the system's
/// stands for what is open.
fn end_of(rt: &HostRuntime, link: &str) -> io::Result<Option<String>> {
    if link.starts_with("/dev/") || link.starts_with("/proc/") {
        return Ok(None);
    }
    match fs::canonicalize(rt, link) {
        Ok(path) if path.is_file(rt) => Ok(Some(path.into_string())),
        Ok(_) => Ok(None),
        Err(error) if error.kind() == ErrorKind::NotFound => {
            Ok(Some(String::from_str(rt.alloc(), link)?))
        }
        Err(error) => Err(error),
    }
}

/// The path that a draft for this name takes: of the regular file under it, or of nothing; none where something else
/// stands there, and for standard output.
fn place_of(rt: &HostRuntime, name: &str) -> io::Result<Option<String>> {
    if name == STANDARD {
        return Ok(None);
    }
    match fs::symlink_metadata(rt, name) {
        Ok(found) if found.is_symlink() => end_of(rt, name),
        Ok(found) if !found.is_file() => Ok(None),
        Err(error) if error.kind() != ErrorKind::NotFound => Err(error),
        _ => Ok(Some(String::from_str(rt.alloc(), name)?)),
    }
}

/// A number by chance, or 0 where the machine has no source of it.
fn chance(rt: &HostRuntime) -> u64 {
    let mut bytes = [0; 8];
    match rt.fill_bytes(&mut bytes) {
        Ok(()) => u64::from_le_bytes(bytes),
        Err(_) => 0,
    }
}

/// A new file beside a place, under a name that no other run has: where one is taken, the next is tried.
fn new_beside(rt: &HostRuntime, place: &str) -> io::Result<(String, File)> {
    let first = chance(rt) % NUMBERS;
    for further in 0..TRIES {
        let own = format!(in rt.alloc(); "{place}.{}.part", first + further)?;
        match File::create_new(rt, own.as_str()) {
            Ok(file) => return Ok((own, file)),
            Err(error) if error.kind() == ErrorKind::AlreadyExists => {}
            Err(error) => return Err(error),
        }
    }
    Err(ErrorKind::AlreadyExists.into())
}

/// Gives a new file the permissions of the one whose place it takes, which the caller must be allowed to write to.
fn inherit(rt: &HostRuntime, place: &str, file: &File) -> io::Result<()> {
    match OpenOptions::new().write(true).open(rt, place) {
        Ok(old) => file.set_permissions(Permissions::from_mode(old.metadata()?.mode() & 0o777)),
        Err(error) if error.kind() == ErrorKind::NotFound => Ok(()),
        Err(error) => Err(error),
    }
}

fn buffered(rt: &HostRuntime, sink: Sink) -> io::Result<BufWriter<Sink>> {
    Ok(BufWriter::with_capacity(rt.alloc(), FILE_BUFFER, sink)?)
}

/// What is written to a new file, ready for its place.
fn ready(rt: &HostRuntime, place: &str, file: File) -> io::Result<BufWriter<Sink>> {
    inherit(rt, place, &file)?;
    buffered(rt, Sink::File(file))
}

/// What is written in place: standard output, a device or a FIFO.
fn in_place(rt: &HostRuntime, name: &str) -> io::Result<Sink> {
    if name == STANDARD {
        return Ok(Sink::Output(rt.stdout()));
    }
    Ok(Sink::File(fs::create(rt, name)?))
}

/// Sees that what was written to a file is on its device.
fn sync(sink: &Sink) -> io::Result<()> {
    match sink {
        Sink::Output(_) => Ok(()),
        Sink::File(file) => file.sync_all(),
    }
}

impl Beside {
    /// Takes the name away under which the draft was written.
    fn remove(&self, rt: &HostRuntime) {
        let _ = fs::remove_file(rt, self.own.as_str());
    }

    /// A draft beside a place.
    fn begin(rt: &HostRuntime, place: String) -> io::Result<Draft> {
        let (own, file) = new_beside(rt, place.as_str())?;
        let beside = Beside { own, place };
        match ready(rt, beside.place.as_str(), file) {
            Ok(out) => Ok(Draft {
                out,
                beside: Some(beside),
            }),
            Err(error) => {
                beside.remove(rt);
                Err(error)
            }
        }
    }

    /// Puts the file in its place.
    fn put(&self, rt: &HostRuntime) -> io::Result<()> {
        let put = fs::rename(rt, self.own.as_str(), self.place.as_str());
        if put.is_err() {
            self.remove(rt);
        }
        put
    }

    /// Puts the file in its place once all of it is on its device.
    fn put_safely(&self, rt: &HostRuntime, sink: &Sink) -> io::Result<()> {
        match sync(sink) {
            Ok(()) => self.put(rt),
            Err(error) => {
                self.remove(rt);
                Err(error)
            }
        }
    }
}

impl Draft {
    /// An empty draft for a file of this name.
    pub(crate) fn new(rt: &HostRuntime, name: &str) -> io::Result<Draft> {
        match place_of(rt, name)? {
            Some(place) => Beside::begin(rt, place),
            None => Ok(Draft {
                out: buffered(rt, in_place(rt, name)?)?,
                beside: None,
            }),
        }
    }

    /// Puts a draft that was flushed in its place, and on its device. Where that fails it is taken away.
    pub(crate) fn keep(self, rt: &HostRuntime) -> io::Result<()> {
        match &self.beside {
            Some(beside) => beside.put_safely(rt, self.out.get_ref()),
            None => Ok(()),
        }
    }

    /// Puts a draft that was flushed in its place at once. Where that fails it is taken away.
    pub(crate) fn show(self, rt: &HostRuntime) -> io::Result<()> {
        match &self.beside {
            Some(beside) => beside.put(rt),
            None => Ok(()),
        }
    }

    /// Takes a draft away.
    pub(crate) fn give_up(self, rt: &HostRuntime) {
        if let Some(beside) = &self.beside {
            beside.remove(rt);
        }
    }
}

impl Write for Draft {
    fn write(&mut self, bytes: &[u8]) -> io::Result<usize> {
        self.out.write(bytes)
    }

    fn flush(&mut self) -> io::Result<()> {
        self.out.flush()
    }
}
