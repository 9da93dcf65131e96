//! The streams of a client, of which it is told at once when they cannot be opened or refuse.
ghost use Rattle.std.specs.Prelude.{◌≡◌, IfSome};
ghost use Rattle.qtext_client.specs.Wires.{HeldBy};

use crate::fault_text::put_client_fault;
use qrun_client::ClientEnd;
use qtext_client::{OpenStreams, Streams};
use std::io::{BufWriter, Write};

/// The streams of the client of this number, their names, and where their faults are told.
#[derive(Drop)]
pub(crate) struct ToldStreams<S: Streams + Drop, E: Write + Drop> {
    pub(crate) streams: S,
    pub(crate) faults: E,
    pub(crate) client: u64,
    pub(crate) input: String,
    pub(crate) output: String,
}

/// What is told of a client that was not served to its end, before the name of the stream that is at fault.
fn words_of(end: ClientEnd) -> Option<&'static str> {
    match end {
        ClientEnd::Served | ClientEnd::Stopped => None,
        ClientEnd::NoInput | ClientEnd::NoOutput => Some("cannot open "),
        ClientEnd::Input => Some("cannot read "),
        ClientEnd::Output => Some("cannot write "),
        ClientEnd::Memory => Some("memory for "),
        ClientEnd::Failed => Some("failed line of "),
    }
}

/// The name of the stream that is at fault, of these two.
fn name_of<'a>(end: ClientEnd, input: &'a str, output: &'a str) -> &'a str {
    match end {
        ClientEnd::NoOutput | ClientEnd::Output => output,
        _ => input,
    }
}

impl<S: Streams + Drop, E: Write + Drop> ToldStreams<S, E> {
    /// Writes and flushes a line, whatever becomes of it, where a client was not served to its end.
    fn tell(&mut self, end: ClientEnd)
        ensures { self.new.streams ≡ self.old.streams }
    {
        let Some(words) = words_of(end) else {
            return;
        };
        let name = name_of(end, self.input.as_str(), self.output.as_str());
        let _ = put_client_fault(&mut self.faults, self.client, words, name);
        let _ = self.faults.flush();
    }
}

impl<S: Streams + Drop, E: Write + Drop> Streams for ToldStreams<S, E> {
    type In = S::In;

    type Out = S::Out;

    ghost says = { λ t. S.says t.streams };

    ghost took = { λ t. S.took t.streams };

    fn open(&mut self) -> Result<OpenStreams<S::In, S::Out>, ClientEnd> {
        self.streams.open()
    }

    fn ended(&mut self, output: Option<BufWriter<S::Out>>, end: ClientEnd)
        ensures { IfSome (S.took self.new.streams) (HeldBy S.Out.contents output) }
    {
        self.streams.ended(output, end);
        self.tell(end);
    }

    ghost always_or_never = { S.always_or_never };
}
