//! Journals checked against a transcript that was written by hand.
ghost use Rattle.std.specs.Prelude.{◌≡◌, length, IfOk};

use crate::given::{FIRST_FILES, journal, lines};
use qaudit_checks::{Mismatch, gather};
use qplain::{CallFault, Receipt, Refusal, Reply, Transcript};
use qrules::Items;
use std::alloc::Global;
use std::test::Fail;

/// The journal in which the first worker makes the first files, and is told that a name is there.
const ONE_WORKER: &[u8] = b"\
quotafs journal 2 workers 2
1 0 1001:0 create /a => refused EEXIST
1 0 1001:0 create /b => refused EEXIST
1 0 1001:0 create /c => refused EEXIST
";

/// The same, where the second worker makes the last file.
const TWO_WORKERS: &[u8] = b"\
quotafs journal 2 workers 2
1 0 1001:0 create /a => refused EEXIST
1 0 1001:0 create /b => refused EEXIST
2 0 1001:0 create /c => refused EEXIST
";

/// The first entry alone.
const ONE_ENTRY: &[u8] = b"\
quotafs journal 2 workers 2
1 0 1001:0 create /a => refused EEXIST
";

/// The transcript of the first worker, who makes the first files at the places 1 to 3, and is refused so each time.
fn transcript(alloc: Global, refusal: Refusal) -> Result<Transcript, Fail>
    ensures each { IfOk result (λ t. length t.answers ≡ length t.lines) }
{
    let lines = lines(alloc, FIRST_FILES)?;
    let mut answers: Vec<Result<Receipt, CallFault>> = Vec::new(alloc);
    for before in 0..lines.as_slice().len() {
        answers.push(Ok(Receipt {
            place: (before as u64).wrapping_add(1),
            reply: Reply::Refused(refusal),
        }))?;
    }
    Ok(Transcript {
        worker: 1,
        lines,
        answers: Items::new(answers),
    })
}

/// Holds a journal against the transcript with this refusal.
fn told(alloc: Global, text: &[u8], refusal: Refusal) -> Result<Result<(), Mismatch>, Fail> {
    let journal = journal(alloc, text)?;
    let transcript = transcript(alloc, refusal)?;
    let transcripts = vec![in alloc; transcript]?;
    Ok(gather(journal.entries(), &transcripts))
}

#[test]
fn another_reply_is_no_match(rt: HostRuntime) -> Result<(), Fail> {
    let same = told(rt.alloc(), ONE_WORKER, Refusal::EEXIST)?;
    let other = told(rt.alloc(), ONE_WORKER, Refusal::ENOSPC)?;
    assert_eq!(rt; (same, other), (Ok(()), Err(Mismatch { place: 1 })));
    Ok(())
}

#[test]
fn an_entry_of_nobody_is_no_match(rt: HostRuntime) -> Result<(), Fail> {
    let found = told(rt.alloc(), TWO_WORKERS, Refusal::EEXIST)?;
    assert_eq!(rt; found, Err(Mismatch { place: 3 }));
    Ok(())
}

#[test]
fn a_receipt_that_is_left_over_is_no_match(rt: HostRuntime) -> Result<(), Fail> {
    let found = told(rt.alloc(), ONE_ENTRY, Refusal::EEXIST)?;
    assert_eq!(rt; found, Err(Mismatch { place: 2 }));
    Ok(())
}
