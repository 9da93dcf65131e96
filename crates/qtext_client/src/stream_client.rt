//! A client that writes script lines into a stream, and reads what it is told from another.
ghost use Rattle.std.specs.Prelude.{◌≡◌, ◌<◌, ◌∷◌, ◌++◌, ◌&&◌, ◌↔◌, [], true, None, Some, IsSome, OnErr, OnOk};
ghost use Rattle.std.specs.Prelude.{is_some, length, option_map};
ghost use Rattle.qplain.specs.declared.line.Line.{Line as ScriptLine};
ghost use Rattle.qrun_client.specs.declared.client.TheConstants.{MAX_GIVEN};
ghost use Rattle.qtext_client.specs.BoundedLines.{IsOneLine};
ghost use Rattle.qrun_client.specs.Clients.{ComesOf, HasLowPlace, IsAnswerIn, Takes, place_of};
ghost use Rattle.qrun_replay.specs.Places.{stand_at};
ghost use Rattle.qtext_client.specs.Conversations.{StaysThere, comes_to, had_behind};
ghost use Rattle.qtext_client.specs.declared.stream_client.Heard.TheVariants.{End};
ghost use Rattle.qtext_client.specs.declared.stream_client.Step.TheVariants.{Ended};
ghost use Rattle.qtext_client.specs.Hearings.{HearsLine, HearsText, IsLine, is_handed_out};
ghost use Rattle.qtext_client.specs.Responses.{has_failed, response_text};
ghost use Rattle.qtext_client.specs.Talks.{behind_owed};
ghost use Rattle.qtext_client.specs.Terms.{IsSpent, behind, binding_of};
ghost use Rattle.qtext_client.specs.Wires.{IsGone, IsGoneIf, IsToldLast};
ghost use Rattle.qtext_files.specs.Scripts.{script_of};

use crate::bounded_line::Got;
use crate::connection::{Connection, EndedClient};
use crate::counts::{Counting, count};
use crate::last_path::{path_after, paths_of};
use crate::moments::{Moments, timed};
use crate::response::{BadLine, Response};
use crate::streams::Streams;
use crate::terms::{Terms, bytes_moved, fault_of};
use crate::turns::{KIB, Turns, await_turns};
use qplain::{Line, NoMemory, Path, Receipt};
use qrun_client::{Answer, Client, ClientEnd, MAX_GIVEN};
use qrun_replay::Places;
use qtext::{ReadFault, TextKind};
use qtext_files::{next_line, read_line};
use std::alloc::Global;
use std::marker::Model;
use std::sync::atomic::{AtomicBool, Ordering};

/// What came of the next line.
#[derive(Drop)]
enum Heard {
    /// A line of a script.
    Line(Line),
    /// None, of which this is told.
    None(Response),
    /// There is no more.
    End,
}

/// What was done with the next line.
enum Step {
    /// It is handed out.
    HandedOut,
    /// It is none of a script, and was told so.
    Told,
    /// There is no more.
    Ended,
}

/// A client that writes script lines, and reads what it is told of each: an answer, or what is wrong with the line.
///
/// A line that is none of a script is told as a fault, and so is one that its terms do not allow: it is never handed
/// out, and takes no place. From 2,097,152 lines on no line is handed out. A client ends where its lines end, where a
/// stream is refused, or where it has gone away; and, where it was made to, at its first line that fails. It keeps
/// where its answers stand, 8 bytes each, and of its lines only the one that is still to be answered and those that
/// failed. Contracts see whether it was made to stop, to whom it is bound, what is left of its share, where the answers
/// stand, that one line, and what is known of its streams.
#[derive(Drop)]
pub struct StreamClient<'a, S: Streams + Drop, M: Moments> {
    alloc: Global,
    moments: &'a M,
    stop: Option<&'a AtomicBool>,
    terms: Option<Terms<'a>>,
    turns: Option<Turns>,
    counting: Option<Counting<'a>>,
    connection: Connection<S>,
    text: Vec<u8>,
    /// The path of the last line that has one.
    path: Option<Path>,
    line: Option<Line>,
    places: Places,
}

impl<'a, S: Streams + Drop, M: Moments> Model for StreamClient<'a, S, M> {
    ghost use Rattle.std.specs.Prelude.{is_some, option_map};
    ghost use Rattle.qtext_client.specs.Conversations.{Progress};
    ghost use Rattle.qtext_client.specs.Talks.{IsKept};
    ghost use Rattle.qtext_client.specs.Terms.{binding_of};

    ghost Value = { Progress };

    ghost view = { λ c. record {
      stops = is_some c.stop;
      bound = option_map binding_of c.terms;
      share = option_map (λ terms. terms.share) c.terms;
      stands = c.places.stands;
      owed = c.line;
      wire = c.connection;
    } };

    ghost invariant = { λ c. IsKept c.line c.places c.connection.end };
}

/// What a text of one line comes to, beside the path of the line before it.
fn heard_in<'x, M: Moments>(
    alloc: Global,
    moments: &M,
    terms: Option<Terms<'_>>,
    path: Option<&'x Path>,
    text: &'x [u8],
) -> Heard
    requires { IsOneLine text.now }
    ensures { HearsText M.clocked (option_map binding_of terms.entry) result (script_of text.now) }
{
    let mut room = Vec::new(alloc);
    let Ok(line) = next_line(&mut room, text) else {
        return Heard::None(Response::NoMemory);
    };
    let Ok(mut paths) = paths_of(path, &room) else {
        return Heard::None(Response::NoMemory);
    };
    match read_line(alloc, &mut paths, 1, &line, &room) {
        Ok(line) => match fault_of(terms, &line) {
            None => Heard::Line(timed(moments, line)),
            Some(fault) => Heard::None(Response::Fault(fault)),
        },
        Err(ReadFault::Memory) => Heard::None(Response::NoMemory),
        Err(ReadFault::Fault(kind)) => Heard::None(Response::Fault(BadLine::Text(kind))),
    }
}

impl<'a, S: Streams + Drop, M: Moments> StreamClient<'a, S, M> {
    /// A client that has handed out no line, and whose streams are opened when the first is asked for.
    ///
    /// With a flag it stops at its first line that fails, sets the flag, and hands out no line where that is set: so do
    /// all clients that share it, but for lines that were handed out by then. With terms it hands out no line of
    /// another caller or with a deeper path, and none once its share is used up; and it takes its turns, for which it
    /// waits before it hands out a line: one for each line, and one for each KiB of it and of what it writes and reads.
    /// Those for a line that is passed over it takes as that is read. With a place to count, what it is told is counted
    /// there.
    pub fn new(
        alloc: Global,
        streams: S,
        moments: &'a M,
        stop: Option<&'a AtomicBool>,
        terms: Option<Terms<'a>>,
        counting: Option<Counting<'a>>,
    ) -> Self
        ensures { result ≡ record {
          stops = is_some stop.entry;
          bound = option_map binding_of terms.entry;
          share = option_map (λ terms. terms.share) terms.entry;
          stands = [];
          owed = None;
          wire = record { hears = S.says streams; wrote = Some []; end = None };
        } }
    {
        let turns = match terms {
            Some(terms) => Some(Turns::new(terms.rate)),
            None => None,
        };
        StreamClient {
            alloc,
            moments,
            stop,
            terms,
            turns,
            counting,
            connection: Connection::new(streams),
            text: Vec::new(alloc),
            path: None,
            line: None,
            places: Places::empty(alloc),
        }
    }

    /// Whether a line has failed after which none is to be handed out.
    fn is_stopped(&self) -> bool {
        match self.stop {
            Some(stop) => stop.load(Ordering::SeqCst),
            None => false,
        }
    }

    /// Whether it has used up its share, where it has one.
    fn is_spent(&self) -> bool
        ensures { result ≡ true ↔ IsSpent self.now.share }
    {
        match &self.terms {
            Some(terms) => terms.share.calls == 0 || terms.share.bytes == 0,
            None => false,
        }
    }

    /// Ends the client, since a line of another one has failed.
    fn end_stopped(&mut self) -> Heard
        requires answered { self.old.owed ≡ None }
        ensures stays { StaysThere self.old self.new }
        ensures end { result ≡ End }
        ensures gone { IsGone self.old.wire self.new.wire }
    {
        self.connection.stop(ClientEnd::Stopped);
        Heard::End
    }

    /// Waits for a line, and reads it.
    #[tactic(auto, unfolding(crate::specs::Terms::behind_all))]
    fn hear(&mut self) -> Heard
        requires answered { self.old.owed ≡ None }
        ensures stays { StaysThere self.old self.new }
        ensures heard { HearsLine M.clocked self.old.bound (had_behind self.old [] []) self.old.wire self.new.wire
            result }
        ensures few { IsLine result → length self.new.stands < MAX_GIVEN }
    {
        let got = self
            .connection
            .next_line(&mut self.text, &mut self.turns, self.moments);
        let many = 1 + self.text.len() as u64 / KIB;
        await_turns(&mut self.turns, self.moments, many);
        match got {
            Got::End | Got::Refused => Heard::End,
            _ if self.is_stopped() => self.end_stopped(),
            _ if self.places.len() >= MAX_GIVEN => Heard::None(Response::Fault(BadLine::Text(
                TextKind::TooMany,
            ))),
            _ if self.is_spent() => Heard::None(Response::Fault(BadLine::Share)),
            Got::Text => heard_in(
                self.alloc,
                self.moments,
                self.terms,
                self.path.as_ref(),
                &self.text,
            ),
            Got::TooLong => Heard::None(Response::Fault(BadLine::Length)),
            Got::NoMemory => Heard::None(Response::NoMemory),
        }
    }

    /// Keeps a line, with room for the place of its answer, and its path. An Err is out of memory.
    fn keep(&mut self, line: Line) -> Result<(), NoMemory>
        requires answered { self.old.owed ≡ None }
        requires few { length self.old.stands < MAX_GIVEN }
        requires open { self.old.wire.end ≡ None }
        ensures ok { OnOk result (self.new ≡ record self.old { owed = Some line }) }
        ensures err { OnErr result (self.new ≡ self.old) }
    {
        self.places.make_room()?;
        self.path = path_after(self.path.take(), &line.call);
        self.line = Some(line);
        Ok(())
    }

    /// Takes the line that is owed an answer, and that, from its share, where it has one.
    fn spend(&mut self, answer: &Answer)
        ensures { self.new ≡ record self.old { share = behind_owed self.old.share self.old.owed answer.now } }
    {
        if let Some(terms) = &mut self.terms
            && let Some(line) = &self.line
        {
            terms.share = terms.share.after(&line.call, answer);
            if let Some(turns) = &mut self.turns {
                turns.take(bytes_moved(&line.call, answer) / KIB, 0);
            }
        }
    }

    /// Keeps where the answer stands to the line that is owed one, which is taken from the share and let go of.
    fn keep_place(&mut self, answer: &Answer)
        requires owed { IsSome self.old.owed }
        requires low { HasLowPlace answer.now }
        ensures open { self.old.wire.end ≡ None }
        ensures answered { self.new.owed ≡ None }
        ensures kept { (line : ScriptLine) → self.old.owed ≡ Some line → self.new ≡ record self.old {
          stands = self.old.stands ++ stand_at line (place_of answer.now) ∷ [];
          share = behind self.old.share line answer.now;
          owed = None;
        } }
    {
        self.spend(answer);
        match answer {
            Ok(receipt) => {
                self.line = None;
                self.places.push(receipt.place);
            }
            Err(fault) => match self.line.take() {
                Some(line) => self.places.push_failed(line, *fault),
                None => unreachable!(),
            },
        }
    }

    /// Tells of a line, and ends the client, and all that share its flag, where it has one and the line has failed.
    fn tell_of(&mut self, response: &Response)
        requires answered { self.old.owed ≡ None }
        ensures stays { StaysThere self.old self.new }
        ensures wire { IsToldLast (self.old.stops && has_failed response.now) self.old.wire self.new.wire
            (response_text response.now) }
    {
        self.connection.tell(response);
        count(self.counting, response);
        if let Some(stop) = self.stop
            && response.has_failed()
        {
            stop.store(true, Ordering::SeqCst);
            self.connection.stop(ClientEnd::Failed);
        }
    }

    /// Waits for a line, and hands it out, or tells what is wrong with it.
    fn step(&mut self) -> Step
        requires answered { self.old.owed ≡ None }
        ensures owed { is_some self.new.owed ≡ is_handed_out result }
        ensures stands { self.new.stands ≡ self.old.stands }
        ensures ended { result ≡ Ended → IsSome self.new.wire.end }
        ensures talk { ComesOf (comes_to M.clocked S.took self.old) (comes_to M.clocked S.took self.new) }
    {
        match self.hear() {
            Heard::Line(line) => match self.keep(line) {
                Ok(()) => Step::HandedOut,
                Err(NoMemory) => {
                    self.tell_of(&Response::NoMemory);
                    Step::Told
                }
            },
            Heard::None(response) => {
                self.tell_of(&response);
                Step::Told
            }
            Heard::End => Step::Ended,
        }
    }
}

impl<'a, S: Streams + Drop + Send, M: Moments + Sync> Client for StreamClient<'a, S, M> {
    ghost use Rattle.std.specs.Prelude.{IsSome};
    ghost use Rattle.qtext_client.specs.Conversations.{comes_to};

    type Form = Receipt;

    type Left = EndedClient<S>;

    ghost clocked = { M.clocked };

    ghost owed = { λ c. c.owed };

    ghost stands = { λ c. c.stands };

    ghost has_ended = { λ c. IsSome c.wire.end };

    ghost talk = { λ c. comes_to M.clocked S.took c };

    fn next(&mut self) -> bool {
        self.connection.begin();
        for _ in 0..u64::MAX {
            match self.step() {
                Step::HandedOut => return true,
                Step::Told => {}
                Step::Ended => return false,
            }
        }
        // So many lines that are none are not read in any time.
        self.connection.end(ClientEnd::Input);
        false
    }

    // Whether a whole line is at hand is not looked at.
    fn next_at_hand(&mut self) -> bool {
        false
    }

    fn line(&self) -> &Line {
        match &self.line {
            Some(line) => line,
            None => unreachable!(),
        }
    }

    fn tell(&mut self, answer: Answer)
        requires owed { IsSome self.old.owed }
        requires answer { IsAnswerIn (λ receipt. receipt) answer }
        ensures answered { self.new.owed ≡ None }
        ensures told { Takes M.clocked (λ receipt. receipt) self.old.owed answer self.old.stands self.new.stands
            (comes_to M.clocked S.took self.old) (comes_to M.clocked S.took self.new) }
    {
        self.keep_place(&answer);
        self.tell_of(&Response::Answer(answer));
    }

    // One that still has lines is not served to its end.
    fn into_parts(self) -> (Places, EndedClient<S>) {
        let StreamClient {
            places,
            connection,
            ..
        } = self;
        (places.close(), connection.close(ClientEnd::Input))
    }
}
