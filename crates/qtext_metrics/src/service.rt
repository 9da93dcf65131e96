//! What a service has counted, as text for a monitor.
ghost use Rattle.std.specs.Prelude.{◌≡◌, ◌+◌, ◌++◌};
ghost use Rattle.std.specs.List.{flat_map};
ghost use Rattle.qtext.specs.Written.{Writes};
ghost use Rattle.qtext_metrics.specs.Services.{all_mishaps_text, calls_text, client_row, client_rows, failure_word};
ghost use Rattle.qtext_metrics.specs.Services.{fault_word, last_call_text, mishap_row, mishaps_text, quota_sample};
ghost use Rattle.qtext_metrics.specs.Services.{refusal_sample, sample, service_text};
ghost use Rattle.qtext.specs.Pieces.{piece_text};

use crate::counter::{Counter, put_head};
use crate::mishap::{LineFault, Mishap, failures, faults, refusals};
use crate::service_counts::ServiceCounts;
use qplain::{CallFault, Refusal};
use qrules::{Kind, Over};
use qtext::{Piece, Written, kind_word, over_word, put_pieces};
use qtext_read::refusal_name;
use std::io::Write;

fn failure_word(fault: CallFault) -> &'static [u8]
    ensures { result.now ≡ failure_word fault }
{
    match fault {
        CallFault::JournalFull => b"JournalFull",
        CallFault::OutOfMemory => b"OutOfMemory",
    }
}

fn fault_word(fault: LineFault) -> &'static [u8]
    ensures { result.now ≡ fault_word fault }
{
    match fault {
        LineFault::Text => b"text",
        LineFault::Length => b"line length",
        LineFault::OtherCaller => b"caller",
        LineFault::Depth => b"path depth",
        LineFault::Share => b"share",
    }
}

fn put_sample<'x, W: Write>(
    out: &mut W,
    counter: Counter,
    label: &'x [u8],
    word: Piece<'x>,
    count: u64,
) -> Written
    ensures { Writes (W.contents out.old) (W.contents out.new) result
        (sample counter label.now (piece_text word.entry) count) }
{
    put_pieces(
        out,
        &[
            Piece::Text(counter.name()),
            Piece::Text(b"{"),
            Piece::Text(label),
            Piece::Text(b"=\""),
            word,
            Piece::Text(b"\"} "),
            Piece::Number(count),
            Piece::Text(b"\n"),
        ],
    )
}

fn put_quota<W: Write>(out: &mut W, kind: Kind, over: Over, count: u64) -> Written
    ensures { Writes (W.contents out.old) (W.contents out.new) result (quota_sample kind over count) }
{
    put_pieces(
        out,
        &[
            Piece::Text(Counter::Refused.name()),
            Piece::Text(b"{error=\"EDQUOT\",kind=\""),
            Piece::Text(kind_word(kind)),
            Piece::Text(b"\",limit=\""),
            Piece::Text(over_word(over)),
            Piece::Text(b"\"} "),
            Piece::Number(count),
            Piece::Text(b"\n"),
        ],
    )
}

fn put_refusal<W: Write>(out: &mut W, refusal: Refusal, count: u64) -> Written
    ensures { Writes (W.contents out.old) (W.contents out.new) result (refusal_sample refusal count) }
{
    match refusal {
        Refusal::EDQUOT(kind, over) => put_quota(out, kind, over, count),
        _ => {
            let word = Piece::Text(refusal_name(refusal));
            put_sample(out, Counter::Refused, b"error", word, count)
        }
    }
}

/// Writes how often a mishap was met. No label needs an escape.
fn put_mishap<W: Write>(out: &mut W, counts: &ServiceCounts, mishap: Mishap) -> Written
    ensures { Writes (W.contents out.old) (W.contents out.new) result (mishap_row counts.now mishap) }
{
    let count = counts.mishaps[mishap.place()];
    match mishap {
        Mishap::Refused(refusal) => put_refusal(out, refusal, count),
        Mishap::Failed(fault) => {
            let word = Piece::Text(failure_word(fault));
            put_sample(out, Counter::Failed, b"error", word, count)
        }
        Mishap::Faulty(fault) => {
            let word = Piece::Text(fault_word(fault));
            put_sample(out, Counter::Faulty, b"fault", word, count)
        }
    }
}

fn put_mishaps<W: Write>(out: &mut W, counts: &ServiceCounts, mishaps: &[Mishap]) -> Written
    ensures { Writes (W.contents out.old) (W.contents out.new) result (flat_map (mishap_row counts.now) mishaps.now) }
{
    for mishap in mishaps {
        put_mishap(out, counts, *mishap)?;
    }
    Ok(())
}

fn put_counter<W: Write>(
    out: &mut W,
    counts: &ServiceCounts,
    counter: Counter,
    mishaps: &[Mishap],
) -> Written
    ensures { Writes (W.contents out.old) (W.contents out.new) result (mishaps_text counts.now counter mishaps.now) }
{
    put_head(out, counter)?;
    put_mishaps(out, counts, mishaps)
}

fn put_all_mishaps<W: Write>(out: &mut W, counts: &ServiceCounts) -> Written
    ensures { Writes (W.contents out.old) (W.contents out.new) result (all_mishaps_text counts.now) }
{
    put_counter(out, counts, Counter::Refused, &refusals())?;
    put_counter(out, counts, Counter::Failed, &failures())?;
    put_counter(out, counts, Counter::Faulty, &faults())
}

/// Writes the calls of the client of this number, where there is one.
fn put_client<W: Write>(out: &mut W, number: u64, calls: Option<u64>) -> Written
    ensures { Writes (W.contents out.old) (W.contents out.new) result (client_row number calls) }
{
    let Some(calls) = calls else {
        return Ok(());
    };
    put_sample(out, Counter::Calls, b"client", Piece::Number(number), calls)
}

fn put_clients<W: Write>(out: &mut W, calls: &[Option<u64>]) -> Written
    ensures { Writes (W.contents out.old) (W.contents out.new) result (client_rows 1 calls.now) }
{
    for (index, made) in calls.iter().enumerate() {
        put_client(out, index as u64 + 1, *made)?;
    }
    Ok(())
}

fn put_calls<W: Write>(out: &mut W, calls: &[Option<u64>]) -> Written
    ensures { Writes (W.contents out.old) (W.contents out.new) result (calls_text calls.now) }
{
    put_head(out, Counter::Calls)?;
    put_clients(out, calls)
}

fn put_last_call<W: Write>(out: &mut W, moment: u64) -> Written
    ensures { Writes (W.contents out.old) (W.contents out.new) result (last_call_text moment) }
{
    put_pieces(
        out,
        &[
            Piece::Text(
                b"# HELP quotafs_last_call_timestamp_seconds \
                When the last call was made, since 1970; 0 before the first.\n",
            ),
            Piece::Text(
                b"# TYPE quotafs_last_call_timestamp_seconds gauge\nquotafs_last_call_timestamp_seconds ",
            ),
            Piece::Number(moment),
            Piece::Text(b"\n"),
        ],
    )
}

/// Writes what a service has counted, in the text format of Prometheus, as it stands behind a board: how often each
/// mishap was met, also where it never was, the calls of each client, and when the last was made. It takes no memory.
/// After an Err some beginning of the text went out.
pub fn put_service<W: Write>(out: &mut W, counts: &ServiceCounts) -> Written
    ensures { Writes (W.contents out.old) (W.contents out.new) result (service_text counts.now) }
{
    put_all_mishaps(out, counts)?;
    put_calls(out, &counts.calls)?;
    put_last_call(out, counts.last_call)
}
