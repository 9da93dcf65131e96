//! What a session opens with: a new store of a configuration.
ghost use Rattle.std.specs.Prelude.{◌≢◌, Some, IfOk, IfErr, Result};
ghost use Rattle.qplain.specs.Setups.{Setting};
ghost use Rattle.qtext_config.specs.ConfigFaults.{Cause, EndsFor};
ghost use Rattle.qsession.specs.Holdings.{holding_of};
ghost use Rattle.qsession_text.specs.Openings.{IsOpened, IsRead, IsReadingTold, config_in, new_kept};

use crate::buffer::put_text;
use qsession::{Fault, Kept};
use qtext_config::{Config, ConfigFault};
use std::alloc::Global;

/// The configuration of a text in TOML. One that is not UTF-8 is no text.
fn config_of(alloc: Global, text: &[u8]) -> Result<Config, ConfigFault>
    ensures ok { IfOk result (λ config. IsRead config.setup (config_in text.now)) }
    ensures err { IfErr result (λ fault. EndsFor fault (config_in text.now)) }
{
    match std::str::from_utf8(text) {
        Ok(text) => Config::read(alloc, text),
        Err(_) => Err(ConfigFault::Text),
    }
}

/// A new store of a configuration, a text in TOML, with an empty journal or without one; or why there is none. The
/// hashes of names begin at `seed`, any number.
pub fn keep(
    alloc: Global,
    text: &[u8],
    seed: u64,
    is_journaled: bool,
) -> Result<Box<Kept>, ConfigFault>
    ensures ok { IfOk result (λ kept.
        IsOpened (new_kept is_journaled) (Some (holding_of kept.value)) (config_in text.now)) }
    ensures err { IfErr result (λ fault. EndsFor fault (config_in text.now)) }
{
    let config = config_of(alloc, text)?;
    let kept = if is_journaled {
        Kept::journaled(alloc, config.setup, seed)
    } else {
        Kept::plain(alloc, config.setup, seed)
    };
    match kept {
        Ok(kept) => Ok(Box::new(alloc, kept)?),
        Err(_) => Err(ConfigFault::Memory),
    }
}

/// Tells why a text is no configuration: the number of the fault, 51 to 55, and at 52 the key that is missing, of
/// another kind or form, or not known, at the front of the buffer, if it has room. How many bytes the key has is told
/// in any case, 0 where it is no field. Want of memory has the number of Memory.
pub fn tell_config_fault(fault: &ConfigFault, key: &mut [u8], len: &mut usize) -> u32
    ensures told { (read : Result Setting Cause) → EndsFor fault.now read
        → result ≢ 65 → IsReadingTold read key.new len.new result }
    ensures never_ok { result ≢ 0 }
    ensures never_open { result ≢ 68 }
{
    *len = 0;
    match fault {
        ConfigFault::Memory => Fault::Memory.code(),
        ConfigFault::Field(name) => {
            let _ = put_text(name.as_bytes(), key, len);
            fault.number()
        }
        _ => fault.number(),
    }
}
