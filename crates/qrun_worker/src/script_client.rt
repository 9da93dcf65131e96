//! A script as a client: all its lines are at hand.
ghost use Rattle.std.specs.Prelude.{◌≡◌, ◌≤◌, [], None, false, length, IfOk, IsSome};
ghost use Rattle.qplain.specs.declared.bounds.TheConstants.{MAX_LINES};
ghost use Rattle.qrun_client.specs.Clients.{IsAnswerIn, Takes};
ghost use Rattle.qrun_worker.specs.Scripts.{has_still, owed_of};

use crate::lines::Lines;
use qplain::{CallFault, Line, NoMemory, Script};
use qrun_client::Client;
use qrun_replay::Places;
use std::alloc::Global;
use std::marker::Model;

/// A script as a client, with room for the place of each answer. The memory of its lines goes as they are played.
/// Contracts see the lines whose answers are still to come, whether the first of them is handed out, and where the
/// answers to those before stand.
#[derive(Drop)]
pub struct ScriptClient {
    lines: Lines,
    is_owed: bool,
    places: Places,
}

impl Model for ScriptClient {
    ghost use Rattle.std.specs.Prelude.{◌≡◌, ◌<◌, ◌≤◌, true, length};
    ghost use Rattle.qrun_worker.specs.Scripts.{Playing};

    ghost Value = { Playing };

    ghost view = { λ c. record { lines = c.lines; is_owed = c.is_owed; stands = c.places.stands } };

    ghost invariant = { λ c. (length c.lines ≤ c.places.room) × (c.is_owed ≡ true → 0 < length c.lines) };
}

impl ScriptClient {
    /// A script of which no line was handed out. An Err is out of memory.
    pub fn new(alloc: Global, script: Script) -> Result<ScriptClient, NoMemory>
        ensures new { IfOk result (λ c. c ≡ record { lines = script; is_owed = false; stands = [] }) }
        ensures few { length script ≤ MAX_LINES }
    {
        let lines = script.into_lines().into_vec();
        let places = Places::new(alloc, lines.len())?;
        Ok(ScriptClient {
            lines: Lines::new(lines),
            is_owed: false,
            places,
        })
    }
}

impl Client for ScriptClient {
    ghost use Rattle.std.specs.Prelude.{◌≡◌, [], false};
    ghost use Rattle.qrun_worker.specs.Scripts.{has_still, owed_of};

    type Form = u64;

    type Left = ();

    ghost clocked = { false };

    ghost owed = { λ c. owed_of c.is_owed c.lines };

    ghost stands = { λ c. c.stands };

    ghost has_ended = { λ c. c.lines ≡ [] };

    ghost talk = { λ c. has_still c.lines };

    #[inline(always)]
    fn next(&mut self) -> bool {
        self.lines.give_back();
        self.is_owed = self.lines.len() > 0;
        self.is_owed
    }

    #[inline(always)]
    fn next_at_hand(&mut self) -> bool {
        self.is_owed = self.lines.len() > 0;
        self.is_owed
    }

    #[inline(always)]
    fn line(&self) -> &Line {
        self.lines.peek()
    }

    #[inline(always)]
    fn tell(&mut self, answer: Result<u64, CallFault>)
        requires owed { IsSome (owed_of self.old.is_owed self.old.lines) }
        requires answer { IsAnswerIn (λ receipt. receipt.place) answer }
        ensures answered { owed_of self.new.is_owed self.new.lines ≡ None }
        ensures told { Takes false (λ receipt. receipt.place) (owed_of self.old.is_owed self.old.lines) answer
            self.old.stands self.new.stands (has_still self.old.lines) (has_still self.new.lines) }
    {
        self.is_owed = false;
        match answer {
            Ok(place) => {
                self.places.push(place);
                self.lines.pass();
            }
            Err(fault) => self.places.push_failed(self.lines.take(), fault),
        }
    }

    fn into_parts(self) -> (Places, ()) {
        (self.places.close(), ())
    }
}
