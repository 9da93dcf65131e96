//! Sessions are opened and closed.
ghost use Rattle.std.specs.Prelude.{◌≡◌, ◌≢◌, ◌↔◌, None, IsSome};
ghost use Rattle.qsession.specs.Holdings.{held_in, new_plain};
ghost use Rattle.qsession_text.specs.Openings.{IsOpened, IsReadingTold, config_in};

use qsession::{Fault, Session};
use qsession_text::{keep, tell_config_fault};
use std::alloc::Global;

/// Opens a session with a new store of a configuration, a text in TOML. The hashes of names begin at the seed, any
/// number.
///
/// Returns 0; 68 where the session is open already; 51 to 55, why the text is no configuration, and at 52 the buffer
/// holds the key that is at fault, if it has room, and the length is the key's in any case; 65 for want of memory.
#[tactic(auto, using(qsession_text::proofs::Reading::told_opened))]
#[unsafe(no_mangle)]
pub extern "C" fn qfs_open(
    alloc: Global,
    session: &mut Session,
    config: &[u8],
    seed: u64,
    key: &mut [u8],
    len: &mut usize,
) -> u32
    ensures opened { result ≡ 0 → IsOpened new_plain (held_in session.new.slot.kept) (config_in config.now) }
    ensures open { (result ≡ 68) ↔ IsSome session.old.slot.kept }
    ensures told { result ≢ 65 → result ≢ 68 → IsReadingTold (config_in config.now) key.new len.new result }
    ensures fault { result ≢ 0 → session.new.slot.kept ≡ session.old.slot.kept }
{
    if session.is_open() {
        return Fault::Open.code();
    }
    match keep(alloc, config, seed, false) {
        Ok(kept) => {
            *session = Session::of(kept);
            0
        }
        Err(fault) => tell_config_fault(&fault, key, len),
    }
}

/// Closes a session, and frees all that it holds. A closed one stays closed.
#[unsafe(no_mangle)]
pub extern "C" fn qfs_close(alloc: Global, session: &mut Session)
    ensures { session.new.slot.kept ≡ None }
{
    let _kept = session.take(alloc);
}
