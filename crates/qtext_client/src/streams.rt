//! The streams of a client.
ghost use Rattle.std.specs.Prelude.{◌≡◌, ◌≢◌, [], Some, None, Err, Option, List, ℕ, IfOk, IfSome};
ghost use Rattle.std.specs.Io.Buffered.{reader_remaining, writer_contents};
ghost use Rattle.qrun_client.specs.declared.client.ClientEnd.TheVariants.{Served};
ghost use Rattle.qtext_client.specs.Wires.{HeldBy};

use qrun_client::ClientEnd;
use std::io::{BufReader, BufWriter, Read, Write};

/// The streams of a client that are open.
#[derive(Drop)]
pub struct OpenStreams<I: Read + Drop, O: Write + Drop> {
    pub input: BufReader<I>,
    pub output: BufWriter<O>,
}

/// How a client's streams are opened, for which both sides may wait, and let go of.
pub trait Streams {
    type In: Read + Drop;

    type Out: Write + Drop;

    /// What its input will say, where that is known before it is opened.
    ghost says: { Self → Option (List ℕ) };

    /// What its output took, where that is known when it was let go of.
    ghost took: { Self → Option (List ℕ) };

    /// Both, the input first; an Err says which of them is not to be had. The output is empty where it tells its bytes.
    fn open(&mut self) -> Result<OpenStreams<Self::In, Self::Out>, ClientEnd>
        ensures input { IfOk result (λ streams. IfSome (says self.old)
            (λ bytes. reader_remaining Self.In.remaining streams.input ≡ Some bytes)) }
        ensures output { IfOk result (λ streams. IfSome (writer_contents Self.Out.contents streams.output)
            (λ bytes. bytes ≡ [])) }
        ensures end { result ≢ Err Served };

    /// Is told how the client has ended, once, and takes back its output, where that was opened. The input is let go of
    /// by then.
    fn ended(&mut self, output: Option<BufWriter<Self::Out>>, end: ClientEnd)
        ensures { IfSome (took self.new) (HeldBy Self.Out.contents output) };

    /// Its outputs tell their bytes always, or never.
    ghost always_or_never: { (one other : Self.Out) → Self.Out.contents one ≡ None → Self.Out.contents other ≡ None };
}
