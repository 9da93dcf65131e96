//! Friendly scripts, from their file to the output.
ghost use Rattle.std.specs.Prelude.{◌≡◌, codes, option_map, string_bytes, unwrap_or, IfErr, IfOk};
ghost use Rattle.qtext.specs.Written.{Writes};
ghost use Rattle.qtool.specs.Endings.{IsLeftUnlessRefused};
ghost use Rattle.qtool.specs.Printed.{PrintsExpansion, friendly_file};

use crate::ending::Ending;
use crate::reading::{configuration, load};
use crate::standard::{STANDARD, optional};
use crate::{Files, TextFault, TextKind};
use qtext::{RefusedWrite, Written, put};
use qtext_expand::expand;
use qtext_job::ExpandJob;
use std::alloc::Global;
use std::io::Write;

/// The file that is read for a name.
fn file_of(name: &str) -> &str
    ensures { result.now ≡ friendly_file name.now }
{
    if name == STANDARD { "/dev/stdin" } else { name }
}

/// Writes a text, and flushes it.
#[tactic(auto, using(qtool_files::proofs::Flushes::refused_at_the_flush, qtext::proofs::Fronts::keeps_appends))]
fn finish_text<O: Write>(text: &[u8], out: &mut O) -> Written
    ensures { Writes (O.contents out.old) (O.contents out.new) result text.now }
{
    if put(out, text).is_err() || out.flush().is_err() {
        return Err(RefusedWrite);
    }
    Ok(())
}

/// The ending of a friendly script that is at fault.
fn ending_of(alloc: Global, name: &str, fault: TextFault) -> Ending {
    if fault.kind == TextKind::Memory {
        return Ending::Memory;
    }
    match String::from_str(alloc, name) {
        Ok(name) => Ending::Friendly(name, fault),
        Err(_) => Ending::Memory,
    }
}

/// Reads the configuration and then the friendly script, that of standard input where none is named, and writes it out
/// as a plain one. A fault leaves the output as it was.
pub(crate) fn expand_job<F: Files, O: Write>(
    alloc: Global,
    job: &ExpandJob,
    files: &mut F,
    out: &mut O,
) -> Result<(), Ending>
    ensures printed { IfOk result (λ _. PrintsExpansion (string_bytes job.now.config)
        (unwrap_or (option_map (λ s. string_bytes s) job.now.script) (codes "-")) (F.held files.old)
        (O.contents out.old) (O.contents out.new)) }
    ensures left { IfErr result (IsLeftUnlessRefused (O.contents out.old) (O.contents out.new)) }
{
    let config = configuration(alloc, files, job.config.as_str()).map_err(|ending| ending.explained(
        false,
    ))?;
    let name = optional(&job.script).unwrap_or(STANDARD);
    let friendly = load(alloc, files, file_of(name)).map_err(|ending| ending.explained(false))?;
    match expand(alloc, &config.setup, &friendly) {
        Ok(text) => finish_text(&text, out).map_err(|_| Ending::Output),
        Err(fault) => Err(ending_of(alloc, name, fault)),
    }
}
