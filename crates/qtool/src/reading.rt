//! What the program reads: files, the configuration and scripts.
ghost use Rattle.std.specs.Prelude.{◌≡◌, map, string_bytes, length, IfOk};
ghost use Rattle.qtool_files.specs.Held.{IsUnder};
ghost use Rattle.qtext_config.specs.ConfigClients.{named_client};
ghost use Rattle.qtool.specs.Under.{AreScriptsUnder, IsConfigNaming, IsConfigUnder};

use crate::ending::Ending;
use crate::{Config, ConfigFault, FileFault, Files, Script, TextKind};
use qtool_runs::{ScriptFault, ScriptReader, finish_all};
use std::alloc::Global;
use std::thread::Threads;

/// The ending of a file that cannot be read.
fn unreadable(alloc: Global, name: &str, fault: FileFault) -> Ending {
    match String::from_str(alloc, name) {
        Ok(name) => Ending::File {
            name,
            why: Some(fault),
        },
        Err(_) => Ending::Memory,
    }
}

/// Reads a file.
pub(crate) fn load<F: Files>(alloc: Global, files: &mut F, name: &str) -> Result<Vec<u8>, Ending>
    ensures under { IfOk result (λ bytes. IsUnder (F.held files.old) name.now bytes.items) }
    ensures same { F.held files.new ≡ F.held files.old }
{
    match files.read(name) {
        Ok(bytes) => Ok(bytes),
        Err(FileFault::Memory) => Err(Ending::Memory),
        Err(fault) => Err(unreadable(alloc, name, fault)),
    }
}

/// The text of a configuration. One that is not UTF-8 cannot be read.
pub(crate) fn text_of<'a>(alloc: Global, name: &str, bytes: &'a [u8]) -> Result<&'a str, Ending>
    ensures { IfOk result (λ text. text.now ≡ bytes.now) }
{
    match std::str::from_utf8(bytes) {
        Ok(text) => Ok(text),
        Err(_) => Err(unreadable(alloc, name, FileFault::NotText)),
    }
}

/// Reads the configuration.
pub(crate) fn configuration<F: Files>(
    alloc: Global,
    files: &mut F,
    name: &str,
) -> Result<Config, Ending>
    ensures config { IfOk result (λ config. IsConfigUnder (F.held files.old) name.now config.setup) }
    ensures clients { IfOk result (λ config.
        IsConfigNaming (F.held files.old) name.now config.setup (map named_client config.clients)) }
    ensures same { F.held files.new ≡ F.held files.old }
{
    let bytes = load(alloc, files, name)?;
    match Config::read(alloc, text_of(alloc, name, &bytes)?) {
        Ok(config) => Ok(config),
        Err(ConfigFault::Memory) => Err(Ending::Memory),
        Err(fault) => Err(Ending::Config(fault)),
    }
}

/// The ending of a run one of whose scripts is at fault.
fn misread(script: ScriptFault) -> Ending {
    match script.fault.kind {
        TextKind::Memory => Ending::Memory,
        _ => Ending::Script(script.number, script.fault),
    }
}

/// Reads the scripts. Their files are opened in order, and each text but the last is read in a thread of its own as
/// soon as its file is. The ending is that of the first file or script that has one.
pub(crate) fn read_scripts<F: Files, R: Threads>(
    rt: &R,
    alloc: Global,
    files: &mut F,
    names: &[String],
) -> Result<Vec<Script>, Ending>
    ensures each { IfOk result (λ scripts. length scripts.items ≡ length names.now) }
    ensures scripts { IfOk result
        (λ scripts. AreScriptsUnder (F.held files.old) (map (λ n. string_bytes n) names.now) scripts.items) }
    ensures same { F.held files.new ≡ F.held files.old }
{
    let mut readers = Vec::new(alloc);
    for name in names {
        let text = match load(alloc, files, name.as_str()) {
            Ok(text) => text,
            Err(ending) => {
                finish_all(rt, alloc, readers).map_err(misread)?;
                return Err(ending);
            }
        };
        let reader = if readers.len() + 1 < names.len() {
            ScriptReader::beside(rt, alloc, text)
        } else {
            ScriptReader::here(alloc, text)
        };
        let Ok(()) = readers.push(reader) else {
            return Err(Ending::Memory);
        };
    }
    finish_all(rt, alloc, readers).map_err(misread)
}
