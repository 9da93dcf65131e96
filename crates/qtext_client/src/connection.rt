//! A client's streams: not open yet, open, or let go of.
ghost use Rattle.std.specs.Prelude.{◌≡◌, ◌≢◌, ◌⊎◌, [], None, Some, IfOk, IfSome};
ghost use Rattle.std.specs.Io.Buffered.{reader_remaining, writer_contents};
ghost use Rattle.std.specs.Io.KnownBytes.{Keeps};
ghost use Rattle.qrun_client.specs.declared.client.ClientEnd.TheVariants.{Served};
ghost use Rattle.qtext_client.specs.BoundedLines.{Gets, TakesTurns};
ghost use Rattle.qtext_client.specs.declared.bounded_line.Got.TheVariants.{End};
ghost use Rattle.qtext_client.specs.Responses.{response_text};
ghost use Rattle.qtext_client.specs.Wires.{HasEnded, HasLetGo, HearsSome, IsClosed, IsGone, IsSent, Stays};

use crate::bounded_line::{Got, next_line};
use crate::moments::Moments;
use crate::response::{Response, put_response};
use crate::streams::{OpenStreams, Streams};
use crate::turns::Turns;
use qrun_client::ClientEnd;
use qtext::{RefusedWrite, TextLine};
use std::io::{Read, Write};
use std::marker::Model;
use std::mem;

/// How far a client's streams are.
#[derive(Drop)]
enum Stage<I: Read + Drop, O: Write + Drop> {
    New,
    Open(OpenStreams<I, O>),
    Ended(ClientEnd),
}

/// A client's streams. Contracts see what is known of them.
#[derive(Drop)]
pub(crate) struct Connection<S: Streams + Drop> {
    streams: S,
    stage: Stage<S::In, S::Out>,
    line: TextLine,
}

impl<S: Streams + Drop> Model for Connection<S> {
    ghost use Rattle.qtext_client.specs.Stages.{wire_at};
    ghost use Rattle.qtext_client.specs.Wires.{Wire};

    ghost Value = { Wire };

    ghost view = { λ c. wire_at S.says S.took S.In.remaining S.Out.contents c.streams c.stage };
}

/// What is left of a client of streams: these, which were let go of, and how it has ended.
#[derive(Drop)]
pub struct EndedClient<S: Drop> {
    pub streams: S,
    pub end: ClientEnd,
}

/// Lets out what was told, where no whole line is at hand. Whether the output took it.
fn let_out<I: Read + Drop, O: Write + Drop>(both: &mut OpenStreams<I, O>) -> bool
    ensures output { Keeps (writer_contents O.contents both.old.output) (writer_contents O.contents both.new.output) }
    ensures input { both.new.input ≡ both.old.input }
{
    both.input.buffer().contains(&b'\n') || both.output.flush().is_ok()
}

/// Reads the next line into the text. What was told goes out before it is waited for.
fn line_from<I: Read + Drop, O: Write + Drop, M: Moments>(
    both: &mut OpenStreams<I, O>,
    text: &mut Vec<u8>,
    turns: &mut Option<Turns>,
    moments: &M,
) -> Result<Got, RefusedWrite>
    ensures output { Keeps (writer_contents O.contents both.old.output) (writer_contents O.contents both.new.output) }
    ensures gets { IfOk result (Gets (reader_remaining I.remaining both.old.input)
        (reader_remaining I.remaining both.new.input) text.new.items) }
    ensures turns { IfOk result (λ got.
        TakesTurns (reader_remaining I.remaining both.old.input) got turns.old turns.new) }
{
    if !let_out(both) {
        return Err(RefusedWrite);
    }
    Ok(next_line(&mut both.input, text, turns, moments))
}

impl<S: Streams + Drop> Connection<S> {
    /// With streams that are not open yet.
    pub(crate) fn new(streams: S) -> Self
        ensures { result ≡ record { hears = S.says streams; wrote = Some []; end = None } }
    {
        Connection {
            streams,
            stage: Stage::New,
            line: TextLine::new(),
        }
    }

    /// Ends it, unless it has ended, and gives back what is left of it.
    pub(crate) fn close(mut self, end: ClientEnd) -> EndedClient<S>
        requires { end ≢ Served }
        ensures { IsClosed self (S.took result.streams) result.end }
    {
        self.end(end);
        match self.stage {
            Stage::Ended(end) => EndedClient {
                streams: self.streams,
                end,
            },
            Stage::New | Stage::Open(_) => unreachable!(),
        }
    }

    /// Opens the streams, the first time.
    pub(crate) fn begin(&mut self)
        ensures { Stays self.old self.new ⊎ HasEnded self.old self.new }
    {
        if let Stage::New = self.stage {
            match self.streams.open() {
                Ok(both) => self.stage = Stage::Open(both),
                Err(end) => self.end(end),
            }
        }
    }

    /// Lets go of the streams. Of two ends the first stays.
    pub(crate) fn end(&mut self, end: ClientEnd)
        ensures { HasLetGo end self.old self.new }
    {
        match mem::replace(&mut self.stage, Stage::Ended(end)) {
            Stage::New => self.streams.ended(None, end),
            Stage::Open(OpenStreams { input, output }) => {
                drop(input);
                self.streams.ended(Some(output), end);
            }
            ended => self.stage = ended,
        }
    }

    /// Lets out all that was told, where the streams are open. Whether the output took it.
    fn let_all_out(&mut self) -> bool
        ensures { (Stays self.old self.new × (self.old.end ≡ None)) ⊎ (self.new ≡ self.old) }
    {
        match &mut self.stage {
            Stage::Open(both) => both.output.flush().is_ok(),
            Stage::New | Stage::Ended(_) => true,
        }
    }

    /// Lets go of the streams before the lines have ended, and of all that was told before that. Of two ends the first
    /// stays.
    pub(crate) fn stop(&mut self, end: ClientEnd)
        requires { end ≢ Served }
        ensures { IsGone self.old self.new }
    {
        if self.let_all_out() {
            self.end(end);
        } else {
            self.end(ClientEnd::Output);
        }
    }

    /// Ends it where there is no line.
    fn end_of_lines(&mut self, end: ClientEnd) -> Got
        ensures got { result ≡ End }
        ensures ended { HasLetGo end self.old self.new }
    {
        self.end(end);
        Got::End
    }

    /// Reads the next line into the text. What was told goes out before it is waited for.
    pub(crate) fn next_line<M: Moments>(
        &mut self,
        text: &mut Vec<u8>,
        turns: &mut Option<Turns>,
        moments: &M,
    ) -> Got
        ensures hears { HearsSome self.old self.new text.new.items result }
        ensures turns { TakesTurns self.old.hears result turns.old turns.new }
    {
        let Stage::Open(both) = &mut self.stage else {
            return self.end_of_lines(ClientEnd::Input);
        };
        match line_from(both, text, turns, moments) {
            Ok(Got::End) => self.end_of_lines(ClientEnd::Served),
            Ok(Got::Refused) => self.end_of_lines(ClientEnd::Input),
            Ok(got) => got,
            Err(RefusedWrite) => self.end_of_lines(ClientEnd::Output),
        }
    }

    /// Tells the client of a line. One that cannot be told has ended.
    pub(crate) fn tell(&mut self, response: &Response)
        ensures { IsSent self.old self.new (response_text response.now) }
    {
        match &mut self.stage {
            Stage::Open(both) => match put_response(&mut both.output, &mut self.line, response) {
                Ok(()) => {}
                Err(RefusedWrite) => self.end(ClientEnd::Output),
            },
            Stage::New | Stage::Ended(_) => self.end(ClientEnd::Output),
        }
    }
}
