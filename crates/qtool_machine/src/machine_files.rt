//! The machine's files.

use crate::client_streams::{ClientStreams, STANDARD};
use crate::draft::Draft;
use crate::progress::Progress;
use crate::whole_text::whole_text;
use qplain::{NoMemory, Script};
use qtool_files::{FileFault, Files, NamedStreams};
use std::fs::{self, Metadata};
use std::io::{self, BufWriter, ErrorKind, Stderr};
use std::os::unix::fs::MetadataExt;

/// The name under which the system has what standard input comes from.
const INPUT: &str = "/proc/self/fd/0";

/// The name under which the system has what standard output goes to.
const OUTPUT: &str = "/proc/self/fd/1";

/// As long a fault line of a client goes out by one write, in bytes.
const FAULT_BUFFER: usize = 4096;

/// The machine's files, as the runtime of the program's `main` reaches them.
#[derive(Drop)]
pub struct MachineFiles<'a> {
    /// What `main` is given.
    pub rt: &'a HostRuntime,
}

fn fault_of(error: &io::Error) -> FileFault {
    match error.kind() {
        ErrorKind::OutOfMemory => FileFault::Memory,
        ErrorKind::NotFound | ErrorKind::NotADirectory => FileFault::NotThere,
        ErrorKind::IsADirectory => FileFault::Folder,
        ErrorKind::PermissionDenied => FileFault::NotPermitted,
        _ => FileFault::Fails,
    }
}

/// The name under which the system has this file, where this is what stands for standard input or output.
fn path_of<'a>(name: &'a str, standard: &'static str) -> &'a str {
    if name == STANDARD { standard } else { name }
}

/// What was read, or why not.
fn read_as(text: io::Result<Option<Vec<u8>>>) -> Result<Vec<u8>, FileFault> {
    match text {
        Ok(Some(text)) => Ok(text),
        Ok(None) => Err(FileFault::LongLine),
        Err(error) => Err(fault_of(&error)),
    }
}

/// Whether both are of one file or folder.
fn are_of_one(one: &Metadata, other: &Metadata) -> bool {
    one.dev() == other.dev() && one.ino() == other.ino()
}

/// The folder in which a file of this name is made, and what it is called there.
fn parts_of(name: &str) -> (&str, &str) {
    match name.rsplit_once('/') {
        Some(("", last)) => ("/", last),
        Some((folder, last)) => (folder, last),
        None => (".", name),
    }
}

/// Whether two names under which nothing stands yet are two spellings of one.
fn are_one_place(rt: &HostRuntime, name: &str, other: &str) -> bool {
    let ((folder, last), (further, own)) = (parts_of(name), parts_of(other));
    if name == other || last != own {
        return false;
    }
    match (fs::metadata(rt, folder), fs::metadata(rt, further)) {
        (Ok(one), Ok(other)) => are_of_one(&one, &other),
        _ => false,
    }
}

/// Whether both names lead to one regular file, or will, where it is not there yet. What is written to a device or a
/// FIFO takes nothing away.
fn are_one_file(rt: &HostRuntime, name: &str, other: &str) -> bool {
    match (fs::metadata(rt, name), fs::metadata(rt, other)) {
        (Ok(left), Ok(right)) => left.is_file() && are_of_one(&left, &right),
        (Err(_), Err(_)) => are_one_place(rt, name, other),
        _ => false,
    }
}

impl<'a> Files for MachineFiles<'a> {
    type Draft = Draft;

    type Progress = Progress<'a>;

    fn read(&mut self, name: &str) -> Result<Vec<u8>, FileFault> {
        let alloc = self.rt.alloc();
        if name == STANDARD {
            return read_as(whole_text(alloc, self.rt.stdin()));
        }
        match fs::open(self.rt, name) {
            Ok(file) => read_as(whole_text(alloc, file)),
            Err(error) => Err(fault_of(&error)),
        }
    }

    fn is_same(&mut self, name: &str, other: &str) -> bool {
        are_one_file(self.rt, path_of(name, OUTPUT), path_of(other, INPUT))
    }

    fn is_output(&mut self, name: &str) -> bool {
        name != STANDARD && are_one_file(self.rt, name, OUTPUT)
    }

    fn draft(&mut self, name: &str) -> Result<Draft, FileFault> {
        Draft::new(self.rt, name).map_err(|error| fault_of(&error))
    }

    fn keep(&mut self, draft: Draft, _name: &str) -> Result<(), FileFault> {
        draft.keep(self.rt).map_err(|error| fault_of(&error))
    }

    fn show(&mut self, draft: Draft, _name: &str) -> Result<(), FileFault> {
        draft.show(self.rt).map_err(|error| fault_of(&error))
    }

    fn give_up(&mut self, draft: Draft) {
        draft.give_up(self.rt);
    }

    fn progress(&self, scripts: &[Script]) -> Option<Progress<'a>> {
        Progress::new(self.rt, scripts)
    }

    fn ended(&self, progress: Progress<'a>) {
        progress.clear();
    }
}

impl<'a> NamedStreams for MachineFiles<'a> {
    type Streams = ClientStreams<'a>;

    type Faults = BufWriter<Stderr>;

    fn faults(&self) -> Result<BufWriter<Stderr>, NoMemory> {
        let faults = BufWriter::with_capacity(self.rt.alloc(), FAULT_BUFFER, self.rt.stderr());
        faults.map_err(|_| NoMemory)
    }

    fn streams(&self, input: &str, output: &str) -> Result<ClientStreams<'a>, NoMemory> {
        let alloc = self.rt.alloc();
        Ok(ClientStreams {
            rt: self.rt,
            input: String::from_str(alloc, input)?,
            output: String::from_str(alloc, output)?,
        })
    }
}
