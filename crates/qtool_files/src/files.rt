//! Files and streams of clients by name, as the program asks for them.
ghost use Rattle.std.specs.Prelude.{◌≡◌, ◌++◌, ℕ, List, [], Option, None, Some, IfOk, IsSome, OnErr, OnOk};
ghost use Rattle.qtext_metrics.specs.Services.{service_text};
ghost use Rattle.qtool_files.specs.Held.{StandsUnder, IsUnder};

use crate::counted_board::finish_board;
use qplain::{NoMemory, Script};
use qrun::Gate;
use qtext::{RefusedWrite, Written};
use qtext_client::Streams;
use qtext_metrics::ServiceCounts;
use std::io::Write;

/// Why a file is not to be had.
#[derive(Clone, Copy, Debug, PartialEq, Eq)]
pub enum FileFault {
    /// It is not there.
    NotThere,
    /// It is a folder.
    Folder,
    /// It may not be read, or not be made.
    NotPermitted,
    /// It is no UTF-8.
    NotText,
    /// More of its bytes stand in a line than may.
    LongLine,
    /// It cannot be read, or not be made, for another reason.
    Fails,
    /// Memory was wanted and not there.
    Memory,
}

/// Files by name, as the program asks for them. Under the name `-` standard input is read, and standard output is
/// written, behind what stands there. A file is written as a draft, which stands under no name that anybody
/// asks for, until it is kept: so under its name there is the whole of it, or what was there before.
pub trait Files {
    /// What stands under each name, a text or nothing, where these files tell it.
    ghost held: { Self → Option (List ℕ → Option (List ℕ)) } = { λ _. None };

    type Draft: Write + Drop + Send;

    /// What tells how far a run is, while it goes on.
    type Progress: Gate + Drop + Sync;

    /// The bytes of a file. An Err gives none of them.
    fn read(&mut self, name: &str) -> Result<Vec<u8>, FileFault>
        ensures under { IfOk result (λ bytes. IsUnder (held self.old) name.now bytes.items) }
        ensures same { held self.new ≡ held self.old };

    /// Whether both are names of one file, so that what is written to one takes the other away.
    fn is_same(&mut self, name: &str, other: &str) -> bool
        ensures same { held self.new ≡ held self.old };

    /// Whether the output goes to the file of that name, so that what is written to it takes the output away.
    fn is_output(&mut self, name: &str) -> bool
        ensures same { held self.new ≡ held self.old };

    /// An empty draft for a file of that name.
    fn draft(&mut self, name: &str) -> Result<Self::Draft, FileFault>
        ensures empty { IfOk result (λ draft. IsSome (held self.old) → Self.Draft.contents draft ≡ Some []) }
        ensures same { held self.new ≡ held self.old };

    /// Puts a draft under the name that it was made for, in the place of what stands there. An Err leaves that as it
    /// was, and nothing of the draft.
    fn keep(&mut self, draft: Self::Draft, name: &str) -> Result<(), FileFault>
        ensures kept { (text : List ℕ) → Self.Draft.contents draft ≡ Some text
            → OnOk result (StandsUnder (held self.old) (held self.new) name.now text) }
        ensures err { OnErr result (held self.new ≡ held self.old) };

    /// The same, where the file may be lost if the machine fails.
    fn show(&mut self, draft: Self::Draft, name: &str) -> Result<(), FileFault>
        ensures shown { (text : List ℕ) → Self.Draft.contents draft ≡ Some text
            → OnOk result (StandsUnder (held self.old) (held self.new) name.now text) }
        ensures err { OnErr result (held self.new ≡ held self.old) };

    /// Puts a board's text under a name, and behind it what was counted, in the place of what stands there. An Err
    /// leaves that.
    fn show_board(&mut self, name: &str, text: &[u8], counts: &ServiceCounts) -> Written
        ensures ok { OnOk result (StandsUnder (held self.old) (held self.new) name.now
            (text.now ++ service_text counts.now)) }
        ensures err { OnErr result (held self.new ≡ held self.old) }
    {
        let Ok(mut draft) = self.draft(name) else {
            return Err(RefusedWrite);
        };
        if finish_board(text, counts, &mut draft).is_err() {
            self.give_up(draft);
            return Err(RefusedWrite);
        }
        match self.show(draft, name) {
            Ok(()) => Ok(()),
            Err(_) => Err(RefusedWrite),
        }
    }

    /// Takes a draft away.
    fn give_up(&mut self, draft: Self::Draft)
        ensures same { held self.new ≡ held self.old };

    /// What tells how far a run of these scripts is, which begins, or None where nothing is to be told.
    fn progress(&self, scripts: &[Script]) -> Option<Self::Progress>;

    /// Ends it, when the run has ended.
    fn ended(&self, progress: Self::Progress);
}

/// The streams of clients by name, each client's for a thread of its own.
pub trait NamedStreams {
    type Streams: Streams<In: Send, Out: Send> + Drop + Send;

    type Faults: Write + Drop + Send;

    /// The streams of a client, none of which is opened yet: `-` is standard input or output.
    fn streams(&self, input: &str, output: &str) -> Result<Self::Streams, NoMemory>;

    /// A writer of fault lines.
    fn faults(&self) -> Result<Self::Faults, NoMemory>;
}
