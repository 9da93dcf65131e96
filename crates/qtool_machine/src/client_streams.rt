//! The streams of clients: FIFOs, files, standard input and output.

ghost use Rattle.std.specs.Prelude.{◌≢◌, refl, ⊤};
ghost use Rattle.qrun_client.specs.declared.client.ClientEnd.TheVariants.{Served};

use qrun_client::ClientEnd;
use qtext_client::{OpenStreams, Streams};
use std::fs::{self, File, OpenOptions};
use std::io::{self, BufReader, BufWriter, ErrorKind, Read, Write};

/// As much of a client's lines is read at once, in bytes.
const INPUT_BUFFER: usize = 65_536;

/// As many bytes of replies are gathered while the client's next line is already there.
const REPLIES_BUFFER: usize = 65_536;

/// The name of standard input and of standard output.
pub(crate) const STANDARD: &str = "-";

/// Where a client's lines come from.
#[derive(Drop)]
pub enum Source {
    Input(io::Stdin),
    File(File),
}

impl Read for Source {
    fn read(&mut self, bytes: &mut [u8]) -> io::Result<usize> {
        match self {
            Source::Input(input) => input.read(bytes),
            Source::File(file) => file.read(bytes),
        }
    }
}

/// Where a client's replies go.
#[derive(Drop)]
pub enum Sink {
    Output(io::Stdout),
    File(File),
}

impl Write for Sink {
    fn write(&mut self, bytes: &[u8]) -> io::Result<usize> {
        match self {
            Sink::Output(output) => output.write(bytes),
            Sink::File(file) => file.write(bytes),
        }
    }

    fn flush(&mut self) -> io::Result<()> {
        match self {
            Sink::Output(output) => output.flush(),
            Sink::File(file) => file.flush(),
        }
    }
}

/// The streams of a client by name. They are opened in the client's own thread, since that waits for the other side.
#[derive(Drop)]
pub struct ClientStreams<'a> {
    pub(crate) rt: &'a HostRuntime,
    pub(crate) input: String,
    pub(crate) output: String,
}

fn open_source(rt: &HostRuntime, name: &str) -> io::Result<BufReader<Source>> {
    let source = if name == STANDARD {
        Source::Input(rt.stdin())
    } else {
        Source::File(fs::open(rt, name)?)
    };
    BufReader::with_capacity(rt.alloc(), INPUT_BUFFER, source)
}

fn open_sink(rt: &HostRuntime, name: &str) -> io::Result<BufWriter<Sink>> {
    let sink = if name == STANDARD {
        Sink::Output(rt.stdout())
    } else {
        let mut options = OpenOptions::new();
        let options = options.write(true).create(true).truncate(true);
        Sink::File(options.open(rt, name)?)
    };
    BufWriter::with_capacity(rt.alloc(), REPLIES_BUFFER, sink)
}

/// How a client ends of whose streams one cannot be opened.
fn unopened(error: &io::Error, end: ClientEnd) -> ClientEnd
    requires { end ≢ Served }
    ensures { result ≢ Served }
{
    if error.kind() == ErrorKind::OutOfMemory {
        ClientEnd::Memory
    } else {
        end
    }
}

impl Streams for ClientStreams<'_> {
    ghost use Rattle.std.specs.Prelude.{None};

    type In = Source;

    type Out = Sink;

    ghost says = { λ _. None };

    ghost took = { λ _. None };

    fn open(&mut self) -> Result<OpenStreams<Source, Sink>, ClientEnd> {
        let input = match open_source(self.rt, self.input.as_str()) {
            Ok(input) => input,
            Err(error) => return Err(unopened(&error, ClientEnd::NoInput)),
        };
        match open_sink(self.rt, self.output.as_str()) {
            Ok(output) => Ok(OpenStreams { input, output }),
            Err(error) => Err(unopened(&error, ClientEnd::NoOutput)),
        }
    }

    // The output is closed, and nothing is known of what it took.
    fn ended(&mut self, output: Option<BufWriter<Sink>>, end: ClientEnd)
        ensures { ⊤ }
    {
        drop(output);
        let _ = end;
    }

    ghost always_or_never = { λ one other none. refl };
}
