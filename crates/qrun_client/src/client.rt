//! Who hands lines to a worker, one after the other, and is told what each was answered.
ghost use Rattle.std.specs.Prelude.{◌≡◌, [], ℕ, Bool, List, Option, None, Some, IsSome, Result, false, is_some};
ghost use Rattle.qplain.specs.declared.call_fault.CallFault.{CallFault};
ghost use Rattle.qplain.specs.declared.line.Line.{Line};
ghost use Rattle.qplain.specs.declared.receipt.Receipt.{Receipt};
ghost use Rattle.qrun_replay.specs.declared.failed_line.FailedLine.{FailedLine};
ghost use Rattle.qrun_client.specs.Clients.{ComesOf, IsAnswerIn, Takes};

use qplain::{CallFault, Line, Receipt, ReceiptForm};
use qrun_replay::Places;

/// As many lines as a client of a service hands out at most: twice as many as a journal has entries, so that a full
/// journal is reported first.
pub const MAX_GIVEN: usize = 2_097_152;

/// What a worker was answered to a line: its place in the journal and the reply, or why it is in no journal.
pub type Answer = Result<Receipt, CallFault>;

/// Who hands lines to a worker, until it has no more, and keeps where the answer to each stands. It hands out no line
/// before the one before it was answered.
pub trait Client {
    /// In which form it is told what was answered.
    type Form: ReceiptForm + Send;

    /// What is left of it at its end, beside where its answers stand.
    type Left: Drop + Send;

    /// Whether a clock may give its lines later moments than they tell.
    ghost clocked: { Bool };

    /// The line that it has handed out and that is still to be answered.
    ghost owed: { Self → Option Line };

    /// Where the answers that it was told stand, in the order of their lines.
    ghost stands: { Self → List (Result ℕ FailedLine) };

    /// That it has no more lines.
    ghost has_ended: { Self → Type 0 };

    /// What may come of it from now on: the lines whose answers are still to come, these answers, and what it leaves.
    ghost talk: { Self → List Line → List (Result Receipt CallFault) → Self.Left → Type 0 };

    /// Hands out the next line, for which it may wait, or tells that there is none any more.
    fn next(&mut self) -> bool
        requires answered { owed self.old ≡ None }
        ensures owed { is_some (owed self.new) ≡ result }
        ensures ended { result ≡ false → has_ended self.new }
        ensures stands { stands self.new ≡ stands self.old }
        ensures talk { ComesOf (talk self.old) (talk self.new) };

    /// Hands out the next line where one is at hand. It waits for nobody.
    fn next_at_hand(&mut self) -> bool
        requires answered { owed self.old ≡ None }
        ensures owed { is_some (owed self.new) ≡ result }
        ensures stands { stands self.new ≡ stands self.old }
        ensures talk { ComesOf (talk self.old) (talk self.new) };

    /// The line that is still to be answered.
    fn line(&self) -> &Line
        requires owed { IsSome (owed self.now) }
        ensures { owed self.now ≡ Some result.now };

    /// Takes the answer to that line, which was journaled with the moment that it tells, or that a clock gave it.
    fn tell(&mut self, answer: Result<Self::Form, CallFault>)
        requires owed { IsSome (owed self.old) }
        requires answer { IsAnswerIn Self.Form.form answer }
        ensures answered { owed self.new ≡ None }
        ensures told { Takes clocked Self.Form.form (owed self.old) answer (stands self.old) (stands self.new)
            (talk self.old) (talk self.new) };

    /// Ends it, when it has no more lines and each was answered: gives back where the answers stand, and what is left.
    fn into_parts(self) -> (Places, Self::Left)
    where
        Self: Sized,
        requires answered { owed self ≡ None }
        requires ended { has_ended self }
        ensures places { result.0 ≡ record { stands = stands self; room = 0 } }
        ensures talk { talk self [] [] result.1 };
}

/// How a client has ended.
#[derive(Clone, Copy, Debug, PartialEq, Eq)]
pub enum ClientEnd {
    /// It had no more lines.
    Served,
    /// Its lines cannot be read any further.
    Input,
    /// What it is told cannot be written any further.
    Output,
    /// The stream of its lines cannot be opened, so it has handed out none.
    NoInput,
    /// The stream of what it is told cannot be opened, so it has handed out no line.
    NoOutput,
    /// Memory was wanted to open its streams, so it has handed out no line.
    Memory,
    /// A line of it has failed, after which none was to be handed out.
    Failed,
    /// A line of another client has failed, after which none was to be handed out.
    Stopped,
}
