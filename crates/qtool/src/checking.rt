//! All that is wrong in a configuration and in scripts, told at once, up to a bound for each file.
ghost use Rattle.std.specs.Prelude.{◌≡◌, [], Ok, Some, true, map, All, option_map, string_bytes, IfOk};
ghost use Rattle.qtext_check.specs.Faults.{faults_of};
ghost use Rattle.qtool.specs.Printed.{IsAllSound, IsSoundUnder};
ghost use Rattle.qtool.specs.Under.{IsConfigUnder};

use crate::ending::Ending;
use crate::reading::{load, text_of};
use crate::standard::test_scripts;
use crate::{Config, Files, Setup};
use qtext::put;
use qtext_check::{Finding, MOST_TOLD, Verdict, check_config, finding_text, findings_of, put_name};
use qtext_job::CheckJob;
use std::alloc::Global;
use std::io::Write;

/// What was read, or nothing where it is at fault, which is told.
fn or_told<T: Drop, E: Write>(read: Result<T, Ending>, err: &mut E) -> Result<Option<T>, Ending>
    ensures { (value : T) → result ≡ Ok (Some value) → read ≡ Ok value }
{
    match read {
        Ok(value) => Ok(Some(value)),
        Err(Ending::Memory) => Err(Ending::Memory),
        Err(ending) => {
            let _ = ending.put_line(err);
            Ok(None)
        }
    }
}

/// Tells a fault, behind the name of its file.
fn tell_text<E: Write>(name: &str, text: &[u8], err: &mut E) {
    let _ = put_name(err, name.as_bytes());
    let _ = put(err, text);
}

/// Tells how many faults a file has beside those that were told, where it has more.
fn tell_more<E: Write>(alloc: Global, name: &str, more: u64, err: &mut E) -> Result<(), Ending> {
    if more > 0 {
        let Ok(text) = format!(in alloc; ": {more} more\n") else {
            return Err(Ending::Memory);
        };
        tell_text(name, text.as_bytes(), err);
    }
    Ok(())
}

/// Tells the first of these faults, and how many more there are.
fn tell<E: Write>(
    alloc: Global,
    name: &str,
    findings: &[Finding<'_>],
    err: &mut E,
) -> Result<(), Ending> {
    let told = findings.len().min(MOST_TOLD);
    for finding in &findings[..told] {
        let Ok(text) = finding_text(alloc, finding) else {
            return Err(Ending::Memory);
        };
        tell_text(name, &text, err);
    }
    tell_more(alloc, name, (findings.len() - told) as u64, err)
}

/// Reads a configuration. What is wrong in it is told before it ends for that.
fn sound_config<F: Files, E: Write>(
    alloc: Global,
    name: &str,
    files: &mut F,
    err: &mut E,
) -> Result<Config, Ending>
    ensures config { IfOk result (λ config. IsConfigUnder (F.held files.old) name.now config.setup) }
    ensures same { F.held files.new ≡ F.held files.old }
{
    let bytes = load(alloc, files, name)?;
    match check_config(alloc, text_of(alloc, name, &bytes)?) {
        Ok(Verdict::Sound(config)) => Ok(config),
        Ok(Verdict::Faulty(findings, more)) => {
            for finding in &findings {
                tell_text(name, &finding.text, err);
            }
            tell_more(alloc, name, more, err)?;
            Err(Ending::Faulty)
        }
        Err(_none) => Err(Ending::Memory),
    }
}

/// Tells all that is wrong in a script, and answers whether nothing is.
fn is_sound<E: Write>(
    alloc: Global,
    setup: Option<&Setup>,
    name: &str,
    text: &[u8],
    err: &mut E,
) -> Result<bool, Ending>
    ensures { IfOk result
        (λ sound. sound ≡ true → faults_of (option_map (λ s. s.now) setup.entry) text.now ≡ []) }
{
    let Ok(findings) = findings_of(alloc, setup, text) else {
        return Err(Ending::Memory);
    };
    tell(alloc, name, &findings, err)?;
    Ok(findings.is_empty())
}

/// Reads a script, and tells all that is wrong in it, and answers whether nothing is.
fn is_sound_file<F: Files, E: Write>(
    alloc: Global,
    setup: Option<&Setup>,
    name: &str,
    files: &mut F,
    err: &mut E,
) -> Result<bool, Ending>
    ensures sound { IfOk result
        (λ sound. sound ≡ true → IsSoundUnder (F.held files.old) (option_map (λ s. s.now) setup.entry) name.now) }
    ensures same { F.held files.new ≡ F.held files.old }
{
    match or_told(load(alloc, files, name), err)? {
        Some(text) => is_sound(alloc, setup, name, &text, err),
        None => Ok(false),
    }
}

/// Reads each script, and tells all that is wrong in them, and answers whether nothing is.
fn are_sound_files<F: Files, E: Write>(
    alloc: Global,
    setup: Option<&Setup>,
    names: &[String],
    files: &mut F,
    err: &mut E,
) -> Result<bool, Ending>
    ensures { IfOk result (λ sound. sound ≡ true → All
        (IsSoundUnder (F.held files.old) (option_map (λ s. s.now) setup.entry))
        (map (λ n. string_bytes n) names.now)) }
{
    let mut sound = true;
    for name in names {
        let next = is_sound_file(alloc, setup, name.as_str(), files, err)?;
        sound &= next;
    }
    Ok(sound)
}

/// Reads the configuration and then each script, and tells on the error output all that is wrong in them; it ends well
/// where nothing is. Without a configuration the scripts are looked at all the same.
pub(crate) fn check_job<F: Files, E: Write>(
    alloc: Global,
    job: &CheckJob,
    files: &mut F,
    err: &mut E,
) -> Result<(), Ending>
    ensures { IfOk result (λ _. IsAllSound (string_bytes job.now.config)
        (map (λ n. string_bytes n) job.now.scripts.items) (F.held files.old)) }
{
    let (config, names) = (job.config.as_str(), job.scripts.as_slice());
    test_scripts(config, names).map_err(Ending::Clash)?;
    let read = sound_config(alloc, config, files, err);
    let Some(config) = or_told(read, err)? else {
        are_sound_files(alloc, None, names, files, err)?;
        return Err(Ending::Faulty);
    };
    if are_sound_files(alloc, Some(&config.setup), names, files, err)? {
        Ok(())
    } else {
        Err(Ending::Faulty)
    }
}
