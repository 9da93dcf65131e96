//! What a file that a run is saved in must not be written over.
ghost use Rattle.std.specs.Prelude.{◌≡◌, ◌≤◌, IfErr, IfSome, length};
ghost use Rattle.qtool_files.specs.Overwritten.{IsScriptOf};

use crate::Files;

/// What a file would be written over: what the run reads, or what it prints to.
#[derive(Clone, Copy, Debug, PartialEq, Eq)]
pub enum Overwritten {
    Config,
    /// The script of that number, from 1.
    Script(u64),
    Output,
}

/// The first of the scripts, numbered from 1, that is the file of this name, where one is.
fn script_under<F: Files>(files: &mut F, name: &str, scripts: &[String]) -> Option<u64>
    ensures one { IfSome result (λ number. (1 ≤ number) × (number ≤ length scripts.now)) }
    ensures same { F.held files.new ≡ F.held files.old }
{
    let mut number = 0u64;
    for script in scripts {
        number += 1;
        if files.is_same(name, script.as_str()) {
            return Some(number);
        }
    }
    None
}

/// Tests that the file of this name, where one is named, is written over nothing that the run reads or prints to. Err
/// is the first of these that it would be written over: the configuration, a script by its number from 1, the output.
pub fn test_written<F: Files>(
    files: &mut F,
    written: Option<&str>,
    config: &str,
    scripts: &[String],
) -> Result<(), Overwritten>
    ensures one { IfErr result (IsScriptOf (length scripts.now)) }
    ensures same { F.held files.new ≡ F.held files.old }
{
    let Some(name) = written else {
        return Ok(());
    };
    if files.is_same(name, config) {
        return Err(Overwritten::Config);
    }
    if let Some(number) = script_under(files, name, scripts) {
        return Err(Overwritten::Script(number));
    }
    if files.is_output(name) {
        return Err(Overwritten::Output);
    }
    Ok(())
}
