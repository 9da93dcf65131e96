//! Sessions that keep a journal: how they are opened, and what it says.
ghost use Rattle.std.specs.Prelude.{◌≡◌, ◌≢◌, ◌↔◌, IsSome};
ghost use Rattle.qsession.specs.Holdings.{HoldsTrue, held_in, new_journaled};
ghost use Rattle.qsession.specs.Replies.{tallies_in};
ghost use Rattle.qsession.specs.Tellings.{IsToldAs, IsPutIn, UnlessMemory};
ghost use Rattle.qsession_text.specs.Journals.{IsReadAgain, session_journal, tallied, text_of};
ghost use Rattle.qsession_text.specs.Openings.{IsOpened, IsReadingTold, config_in};

use qsession::{Fault, Session, TallyReply};
use qsession_text::{keep, tell_config_fault, tell_journal, tell_tally};
use std::alloc::Global;

/// Opens a session that keeps a journal of its calls, with a new store of a configuration. Numbers, key and length are
/// as for `qfs_open`.
#[tactic(auto, using(qsession_text::proofs::Reading::told_opened))]
#[unsafe(no_mangle)]
pub extern "C" fn qfs_open_journaled(
    alloc: Global,
    session: &mut Session,
    config: &[u8],
    seed: u64,
    key: &mut [u8],
    len: &mut usize,
) -> u32
    ensures opened { result ≡ 0 → IsOpened new_journaled (held_in session.new.slot.kept) (config_in config.now) }
    ensures open { (result ≡ 68) ↔ IsSome session.old.slot.kept }
    ensures told { result ≢ 65 → result ≢ 68 → IsReadingTold (config_in config.now) key.new len.new result }
    ensures fault { result ≢ 0 → session.new.slot.kept ≡ session.old.slot.kept }
{
    if session.is_open() {
        return Fault::Open.code();
    }
    match keep(alloc, config, seed, true) {
        Ok(kept) => {
            *session = Session::of(kept);
            0
        }
        Err(fault) => tell_config_fault(&fault, key, len),
    }
}

/// Writes the journal at the front of the buffer, as `quotafs replay` reads it, and tells how long it is. The store is
/// exactly what it leaves when it is played on the plain machine from what the session began with, a new store at
/// `qfs_open_journaled`, and each journaled reply is that machine's.
///
/// Returns 0; 64 where the session is closed, 65 for want of memory, 69 where the buffer has too few bytes, 73 where no
/// journal is kept.
#[unsafe(no_mangle)]
pub extern "C" fn qfs_journal(
    alloc: Global,
    session: &mut Session,
    buffer: &mut [u8],
    len: &mut usize,
) -> u32
    ensures journal { UnlessMemory (held_in session.old.slot.kept) result
        (IsPutIn (text_of (session_journal (held_in session.old.slot.kept))) buffer.new len.new result) }
    ensures again { result ≡ 0 → IsReadAgain (session_journal (held_in session.old.slot.kept)) }
    ensures played { HoldsTrue (held_in session.old.slot.kept) }
    ensures same { session.new.slot.kept ≡ session.old.slot.kept }
{
    session.always_holds_true(alloc);
    let Some(kept) = session.take(alloc) else {
        return Fault::Closed.code();
    };
    let told = tell_journal(alloc, &kept, buffer, len);
    *session = Session::of(kept);
    told
}

/// Tells what the journaled calls did to the totals, added up.
///
/// Returns 0; 64 where the session is closed, 73 where no journal is kept.
#[unsafe(no_mangle)]
pub extern "C" fn qfs_tally(alloc: Global, session: &mut Session, tally: &mut TallyReply) -> u32
    ensures tally { IsToldAs (tallied (session_journal (held_in session.old.slot.kept))) (tallies_in tally.new) result }
    ensures same { session.new.slot.kept ≡ session.old.slot.kept }
{
    let Some(kept) = session.take(alloc) else {
        return Fault::Closed.code();
    };
    let told = tell_tally(&kept, tally);
    *session = Session::of(kept);
    told
}
