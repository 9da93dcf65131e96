//! How the program ends early, in one line.
ghost use Rattle.std.specs.Prelude.{◌≡◌};
ghost use Rattle.qtool.specs.Endings.{IsFaultStatus, IsRefusal};

use crate::clashes::Clash;
use crate::fault_text::{
    put_clash, put_config, put_fault, put_file, put_friendly, put_journal_fault, put_mismatch,
    put_not_started, put_script, put_unwritten,
};
use crate::{ConfigFault, FileFault, Refuser, SavedNames, TextFault};
use qplain::NoMemory;
use qrun_client::ClientEnd;
use qtext::Written;
use std::alloc::Global;
use std::io::Write;

/// Why the program ends before its work is done.
#[derive(Debug, Drop)]
pub(crate) enum Ending {
    /// No file of that name can be read, and why, where that is to be told.
    File {
        name: String,
        why: Option<FileFault>,
    },
    /// What is wrong with the configuration.
    Config(ConfigFault),
    /// There are more scripts than workers.
    TooManyScripts,
    /// There are as many scripts as workers, and boards are to be taken beside them.
    TooManyWithBoards,
    /// Two names of a job are of one file or of one stream.
    Clash(Clash),
    /// There are more clients than workers.
    TooManyClients,
    /// There are as many clients as workers, and a board is to be written beside them.
    TooManyWithBoard,
    /// A client was not served to its end, as was told when that came.
    NotServed(ClientEnd),
    /// The file for boards refused.
    Board,
    /// What is wrong with the script of that number.
    Script(u64, TextFault),
    /// What is wrong with the friendly script in the file of that name.
    Friendly(String, TextFault),
    /// What is wrong with the journal.
    Journal(TextFault),
    /// The journal's reply at that place is another than the store's.
    Mismatch(u64),
    /// The thread of that worker was refused.
    NotStarted(u64),
    /// There was no reader for the boards.
    NoReader,
    /// Memory was wanted and not there.
    Memory,
    /// The output refused.
    Output,
    /// No journal, or no image, can be written to the file of that name.
    Unwritten(String),
    /// What was looked at has faults, as was told.
    Faulty,
}

impl Ending {
    /// The ending where what came of a run was refused, which was to be saved in the files of these names.
    pub(crate) fn refused(alloc: Global, by: Refuser, names: SavedNames<'_>) -> Ending
        ensures { IsRefusal result }
    {
        let name = match by {
            Refuser::Output => None,
            Refuser::Journal => names.journal,
            Refuser::Image => names.image,
        };
        let Some(name) = name else {
            return Ending::Output;
        };
        match String::from_str(alloc, name) {
            Ok(name) => Ending::Unwritten(name),
            Err(_) => Ending::Output,
        }
    }

    /// The same, but for why a file cannot be read, where that is not to be told.
    pub(crate) fn explained(self, verbose: bool) -> Ending {
        match self {
            Ending::File { name, .. } if !verbose => Ending::File { name, why: None },
            ending => ending,
        }
    }

    /// The exit status: 2 for what was asked, 3 for the machine, 4 for the output, 5 for a service that stopped at a
    /// failed line.
    pub(crate) fn status(&self) -> u8
        ensures status { IsFaultStatus result }
        ensures refusal { IsRefusal self.now → result ≡ 4 }
    {
        match self {
            Ending::Config(ConfigFault::Memory)
            | Ending::Mismatch(_)
            | Ending::NotStarted(_)
            | Ending::NoReader
            | Ending::NotServed(ClientEnd::Memory)
            | Ending::Memory => 3,
            Ending::Output
            | Ending::Unwritten(_)
            | Ending::Board
            | Ending::NotServed(ClientEnd::Output) => 4,
            Ending::NotServed(ClientEnd::Failed | ClientEnd::Stopped) => 5,
            _ => 2,
        }
    }

    /// Writes and flushes the line, whatever becomes of it, and answers the status.
    pub(crate) fn tell<E: Write>(&self, err: &mut E) -> u8
        ensures status { IsFaultStatus result }
        ensures refusal { IsRefusal self.now → result ≡ 4 }
    {
        let _ = self.put_line(err);
        let _ = err.flush();
        self.status()
    }

    pub(crate) fn put_line<E: Write>(&self, err: &mut E) -> Written {
        match self {
            Ending::File { name, why } => put_file(err, name.as_bytes(), *why),
            Ending::Config(fault) => put_config(err, fault),
            Ending::TooManyScripts => put_fault(err, b"at most 16 scripts"),
            Ending::TooManyWithBoards => put_fault(err, b"at most 15 scripts with boards"),
            Ending::Clash(clash) => put_clash(err, *clash),
            Ending::TooManyClients => put_fault(err, b"at most 16 clients"),
            Ending::TooManyWithBoard => put_fault(err, b"at most 15 clients with a board"),
            Ending::NotServed(_) | Ending::Faulty => Ok(()),
            Ending::Board => put_fault(err, b"board: output"),
            Ending::Script(number, fault) => put_script(err, *number, fault),
            Ending::Friendly(name, fault) => put_friendly(err, name.as_bytes(), fault),
            Ending::Journal(fault) => put_journal_fault(err, fault),
            Ending::Mismatch(place) => put_mismatch(err, *place),
            Ending::NotStarted(worker) => put_not_started(err, *worker),
            Ending::NoReader => put_fault(err, b"no reader"),
            Ending::Memory => put_fault(err, b"memory"),
            Ending::Output => put_fault(err, b"output"),
            Ending::Unwritten(name) => put_unwritten(err, name.as_bytes()),
        }
    }
}

impl From<NoMemory> for Ending {
    fn from(_none: NoMemory) -> Ending {
        Ending::Memory
    }
}
