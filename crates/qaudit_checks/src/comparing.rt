//! Whether what a receipt stands for is an entry.
ghost use Rattle.std.specs.Prelude.{◌≡◌, [], ◌∷◌};
ghost use Rattle.std.specs.Bool.{Decides};
ghost use Rattle.qplain.specs.Journal.{entry_of};
ghost use Rattle.qplain.specs.Transcripts.{journaled_line};

use qplain::{Call, CallFault, Cred, Entry, Line, Receipt, Reply};

/// Whether the two callers are the same.
fn are_same_creds(one: &Cred, other: &Cred) -> bool
    ensures { Decides result (one.now ≡ other.now) }
{
    one == other
}

/// Whether the two calls are the same.
fn are_same_calls(one: &Call, other: &Call) -> bool
    ensures { Decides result (one.now ≡ other.now) }
{
    one == other
}

/// Whether the two replies are the same.
fn are_same_replies(one: &Reply, other: &Reply) -> bool
    ensures { Decides result (one.now ≡ other.now) }
{
    one == other
}

/// Whether the line, given this reply, is the entry.
fn is_entry(line: &Line, reply: &Reply, entry: &Entry) -> bool
    ensures { Decides result (entry_of entry.now.worker line.now reply.now ≡ entry.now) }
{
    line.moment == entry.moment
        && are_same_creds(&line.cred, &entry.cred)
        && are_same_calls(&line.call, &entry.call)
        && are_same_replies(reply, &entry.reply)
}

/// Whether the line's answer stands for the entry at this place.
pub(crate) fn stands_for(
    line: &Line,
    answer: &Result<Receipt, CallFault>,
    place: u64,
    entry: &Entry,
) -> bool
    ensures { Decides result
        (journaled_line entry.now.worker line.now answer.now ≡ (place, entry.now) ∷ []) }
{
    match answer {
        Ok(receipt) => receipt.place == place && is_entry(line, &receipt.reply, entry),
        Err(_) => false,
    }
}
