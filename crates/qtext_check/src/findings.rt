//! All that is wrong in a script.
ghost use Rattle.std.specs.Prelude.{◌≡◌, ◌≤◌, ◌++◌, ℕ, nat_lt, List, [], length, map, true, IfOk, IfSome};
ghost use Rattle.std.specs.Prelude.{if◌then◌else◌};
ghost use Rattle.std.specs.List.{list_all};
ghost use Rattle.std.specs.Option.{option_map};
ghost use Rattle.qplain.specs.declared.bounds.TheConstants.{MAX_LINES};
ghost use Rattle.qtext.specs.Words.{is_text_byte, words as words_of};
ghost use Rattle.qtext_check.specs.Faults.{checked_lines, fault_at, fault_read, faults_of, first_text_fault, listed};
ghost use Rattle.qtext_check.specs.Found.{AreAtFault};
ghost use Rattle.qtext_check.specs.Places.{IsAtFault};
ghost use Rattle.qtext_check.specs.Wrongs.{refused_in, wrong_in};
ghost use Rattle.qtext_files.specs.Scripts.{script_of};

use crate::fault::{FaultyLine, Finding, Wrong};
use crate::place::word_at_fault;
use crate::refusing::{refused_word, written_refusal};
use qplain::{Line, MAX_LINES, Setup};
use qtext::ReadFault;
use qtext_files::{NextLine, next_line, read_line};
use qtext_read::Paths;
use std::alloc::{AllocError, Global};

/// What is wrong in a line, and which of its words is at fault, from 0.
#[derive(Clone, Copy)]
struct Found {
    wrong: Wrong,
    word: usize,
}

/// What a store of the setup, where one is known, refuses in a line whatever its state.
fn refused_in(setup: Option<&Setup>, line: &Line) -> Option<Found>
    ensures wrong { option_map (λ f. f.wrong) result ≡ refused_in (option_map (λ s. s.now) setup.entry) line.now }
    ensures word { (bytes : List ℕ) → IfSome result (λ f. IsAtFault f.wrong f.word bytes) }
{
    let Some(setup) = setup else {
        return None;
    };
    match written_refusal(setup, line) {
        Some(refusal) => Some(Found {
            wrong: Wrong::Refused(refusal),
            word: refused_word(setup, line, refusal),
        }),
        None => None,
    }
}

/// What is wrong in the line of that number, whose words these are.
fn wrong_in<'a>(
    alloc: Global,
    setup: Option<&Setup>,
    paths: &mut Paths<'a>,
    number: u64,
    line: &NextLine<'a>,
    words: &[&'a [u8]],
) -> Result<Option<Found>, AllocError>
    requires bytes { line.now.is_text ≡ list_all is_text_byte line.now.bytes.now }
    requires words { line.now.is_text ≡ true → map (λ word. word.now) words.now ≡ words_of line.now.bytes.now }
    ensures wrong { IfOk result (λ found. option_map (λ f. f.wrong) found
        ≡ wrong_in (option_map (λ s. s.now) setup.entry)
        (record { number = number; bytes = line.now.bytes.now; whole = line.now.whole })) }
    ensures word { IfOk result (λ found. IfSome found (λ f. IsAtFault f.wrong f.word line.now.bytes.now)) }
{
    match read_line(alloc, paths, number, line, words) {
        Ok(line) => Ok(refused_in(setup, &line)),
        Err(ReadFault::Memory) => Err(AllocError),
        Err(ReadFault::Fault(kind)) => Ok(Some(Found {
            wrong: Wrong::Text(kind),
            word: word_at_fault(alloc, kind, words)?,
        })),
    }
}

/// Puts what is wrong in the line of that number, if anything is, behind what there is.
fn put_found<'a>(
    findings: &mut Vec<Finding<'a>>,
    number: u64,
    bytes: &'a [u8],
    found: Option<Found>,
) -> Result<(), AllocError>
    ensures fault { IfOk result (λ _. map (λ f. f.fault) findings.new.items
        ≡ map (λ f. f.fault) findings.old.items
        ++ listed (option_map (fault_at number) (option_map (λ f. f.wrong) found))) }
    ensures bytes { IfOk result (λ _. map (λ f. f.bytes.now) findings.new.items
        ≡ map (λ f. f.bytes.now) findings.old.items
        ++ listed (option_map (λ fault. bytes.now) (option_map (fault_at number) (option_map (λ f. f.wrong) found)))) }
    ensures word { IfOk result (λ _. AreAtFault findings.old.items
        → IfSome found (λ f. IsAtFault f.wrong f.word bytes.now) → AreAtFault findings.new.items) }
{
    match found {
        Some(Found { wrong, word }) => {
            let fault = FaultyLine {
                line: number,
                wrong,
            };
            Ok(findings.push(Finding { fault, word, bytes })?)
        }
        None => Ok(()),
    }
}

/// What is looked at behind the line of that number: nothing behind the first line too many.
fn left_behind(number: u64, after: &[u8]) -> &[u8]
    ensures left { result.now ≡ (if nat_lt MAX_LINES number then [] else after.now) }
    ensures short { length result.now ≤ length after.now }
{
    if number > MAX_LINES as u64 {
        &[]
    } else {
        after
    }
}

/// All that is wrong in a script, each line by itself: for what it is no line of a script, or, where the setup is
/// known, with what a store of it refuses its call whatever it holds: a moment past 2^40, a caller or an owner that is
/// not declared, a path, data, a limit or a grace that no call may have (profile). Behind the first line that is too
/// many none is looked at.
///
/// An Err is out of memory, and tells nothing.
pub fn findings_of<'a>(
    alloc: Global,
    setup: Option<&Setup>,
    text: &'a [u8],
) -> Result<Vec<Finding<'a>>, AllocError>
    // The fault of each line that has one, in the order of the lines.
    ensures all { IfOk result (λ found. map (λ f. f.fault) found.items
        ≡ faults_of (option_map (λ s. s.now) setup.entry) text.now) }

    // The first for which a line is none is what reading the script tells, and where it tells none there is none.
    ensures first { IfOk result (λ found. first_text_fault (map (λ f. f.fault) found.items)
        ≡ fault_read (script_of text.now)) }

    // Beside each stands its line.
    ensures lines { IfOk result (λ found. map (λ f. f.bytes.now) found.items
        ≡ checked_lines (option_map (λ s. s.now) setup.entry) text.now) }

    // Where a line is none for one of its words, that is the first of its words that is none.
    ensures words { IfOk result (λ found. AreAtFault found.items) }
{
    let mut findings = Vec::new(alloc);
    let mut room = Vec::new(alloc);
    let mut paths = Paths::of(text);
    let mut rest = text;
    let mut number = 0;
    while !rest.is_empty() {
        number += 1;
        let line = next_line(&mut room, rest)?;
        let found = wrong_in(alloc, setup, &mut paths, number, &line, &room)?;
        put_found(&mut findings, number, line.bytes, found)?;
        rest = left_behind(number, line.after);
    }
    Ok(findings)
}
