//! Reports, audits and whole lines as text.
ghost use Rattle.std.specs.Prelude.{◌≡◌, ◌≢◌};
ghost use Rattle.qtext_files.specs.Scripts.{script_of};
ghost use Rattle.qsession.specs.Holdings.{HoldsLawful, held_in};
ghost use Rattle.qsession.specs.Tellings.{IsToldAs, IsPutIn, UnlessMemory};
ghost use Rattle.qsession_text.specs.Lines.{MakesCall, session_answer, only_line};
ghost use Rattle.qsession_text.specs.Reports.{audit_in, report_in};

use qsession::{Fault, Session};
use qsession_text::{answer_line, tell_audit, tell_report};
use std::alloc::Global;

/// Writes the quota report as of a moment at the front of the buffer, and tells how long it is.
///
/// Returns 0; 64 where the session is closed, 65 for want of memory, 69 where the buffer has too few bytes.
#[unsafe(no_mangle)]
pub extern "C" fn qfs_report(
    alloc: Global,
    session: &mut Session,
    moment: u64,
    buffer: &mut [u8],
    len: &mut usize,
) -> u32
    ensures report { UnlessMemory (held_in session.old.slot.kept) result
        (IsPutIn (report_in (held_in session.old.slot.kept) moment) buffer.new len.new result) }
    ensures same { session.new.slot.kept ≡ session.old.slot.kept }
{
    let Some(kept) = session.take(alloc) else {
        return Fault::Closed.code();
    };
    let told = tell_report(alloc, &kept, moment, buffer, len);
    *session = Session::of(kept);
    told
}

/// Recounts the store, and tells how many differences from its records there are: none. What a session holds is always
/// lawful.
///
/// Returns 0; 64 where the session is closed, 65 for want of memory.
#[unsafe(no_mangle)]
pub extern "C" fn qfs_audit(alloc: Global, session: &mut Session, differences: &mut u64) -> u32
    ensures differences { UnlessMemory (held_in session.old.slot.kept) result
        (IsToldAs (audit_in (held_in session.old.slot.kept)) differences.new result) }
    ensures none { result ≡ 0 → differences.new ≡ 0 }
    ensures lawful { HoldsLawful (held_in session.old.slot.kept) }
    ensures same { session.new.slot.kept ≡ session.old.slot.kept }
{
    session.always_lawful(alloc);
    let Some(kept) = session.take(alloc) else {
        return Fault::Closed.code();
    };
    let told = tell_audit(alloc, &kept, differences);
    *session = Session::of(kept);
    told
}

/// Makes the call of a line of a script, `MOMENT CALLER CALL` with a line end, and writes its reply, as a line, at the
/// front of the buffer. How long the reply is, is told also at 69.
///
/// Returns 0, also where the reply is a refusal; 64 where the session is closed, 65 for want of memory, 69 where the
/// buffer has too few bytes, 70 where the text is no such line, 71 where the journal is full: then no call was made.
#[unsafe(no_mangle)]
pub extern "C" fn qfs_line(
    alloc: Global,
    session: &mut Session,
    line: &[u8],
    buffer: &mut [u8],
    len: &mut usize,
) -> u32
    ensures line { UnlessMemory (held_in session.old.slot.kept) result
        (IsPutIn (session_answer (held_in session.old.slot.kept) (script_of line.now)) buffer.new len.new result) }
    ensures made { result ≡ 0 → MakesCall (held_in session.old.slot.kept) (held_in session.new.slot.kept)
        (only_line (script_of line.now)) }
    ensures fault { result ≢ 0 → held_in session.new.slot.kept ≡ held_in session.old.slot.kept }
{
    let Some(mut kept) = session.take(alloc) else {
        return Fault::Closed.code();
    };
    let told = answer_line(alloc, &mut kept, line, buffer, len);
    *session = Session::of(kept);
    told
}
