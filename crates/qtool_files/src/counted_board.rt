//! A board as a file for monitors has it: with what was counted behind it.
ghost use Rattle.std.specs.Prelude.{◌≡◌, ◌++◌, IfOk};
ghost use Rattle.qtext.specs.Written.{Writes};
ghost use Rattle.qtext_metrics.specs.Metrics.{metrics_text};
ghost use Rattle.qtext_metrics.specs.Services.{service_text};

use qplain::{Board, Setup};
use qtext::{RefusedWrite, Written, put};
use qtext_metrics::{ServiceCounts, put_metrics, put_service};
use std::alloc::Global;
use std::io::Write;

/// The text of a board of a store of this setup. An Err is out of memory.
pub(crate) fn text_of(alloc: Global, setup: &Setup, board: &Board) -> Result<Vec<u8>, RefusedWrite>
    ensures { IfOk result (λ text. text.items ≡ metrics_text setup.now board.now) }
{
    let mut text = Vec::new(alloc);
    put_metrics(&mut text, setup, board)?;
    Ok(text)
}

/// Writes a board's text, and behind it what was counted, and flushes it.
pub(crate) fn finish_board<W: Write>(text: &[u8], counts: &ServiceCounts, out: &mut W) -> Written
    ensures { Writes (W.contents out.old) (W.contents out.new) result (text.now ++ service_text counts.now) }
{
    put(out, text)?;
    put_service(out, counts)?;
    if out.flush().is_err() {
        return Err(RefusedWrite);
    }
    Ok(())
}
