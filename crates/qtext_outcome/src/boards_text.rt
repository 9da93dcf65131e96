//! What looks at the boards were given, as text.
ghost use Rattle.std.specs.Prelude.{◌≡◌, length};
ghost use Rattle.std.specs.List.{flat_map};
ghost use Rattle.qtext.specs.Written.{Writes};
ghost use Rattle.qtext_outcome.specs.Boards.{boards_head, boards_text, look_fault_text, look_text};

use crate::counts::put_counts;
use qplain::{Board, LookFault};
use qtext::{Piece, Written, put_pieces};
use std::io::Write;

/// The word of a look that was shown no board.
pub fn look_fault_word(fault: LookFault) -> &'static [u8]
    ensures { result.now ≡ look_fault_text fault }
{
    match fault {
        LookFault::NoBoard => b"NoBoard",
        LookFault::ESRCH => b"ESRCH",
        LookFault::OutOfMemory => b"OutOfMemory",
    }
}

fn put_board<W: Write>(out: &mut W, board: &Board) -> Written
    ensures { Writes (W.contents out.old) (W.contents out.new) result (look_text (Ok board.now)) }
{
    let counts: [(&[u8], u64); 3] = [
        (b"board ", board.version),
        (b" blocks ", board.blocks),
        (b" inodes ", board.inodes),
    ];
    put_counts(out, &counts)
}

fn put_no_board<W: Write>(out: &mut W, fault: LookFault) -> Written
    ensures { Writes (W.contents out.old) (W.contents out.new) result (look_text (Err fault)) }
{
    let pieces = [
        Piece::Text(b"board - failed "),
        Piece::Text(look_fault_word(fault)),
        Piece::Text(b"\n"),
    ];
    put_pieces(out, &pieces)
}

fn put_look<W: Write>(out: &mut W, look: &Result<Board, LookFault>) -> Written
    ensures { Writes (W.contents out.old) (W.contents out.new) result (look_text look.now) }
{
    match look {
        Ok(board) => put_board(out, board),
        Err(fault) => put_no_board(out, *fault),
    }
}

fn put_looks<W: Write>(out: &mut W, looks: &[Result<Board, LookFault>]) -> Written
    ensures { Writes (W.contents out.old) (W.contents out.new) result (flat_map look_text looks.now) }
{
    for look in looks {
        put_look(out, look)?;
    }
    Ok(())
}

fn put_head<W: Write>(out: &mut W, count: u64) -> Written
    ensures { Writes (W.contents out.old) (W.contents out.new) result (boards_head count) }
{
    if count == 0 {
        return Ok(());
    }
    put_counts(out, &[(b"boards ", count)])
}

/// Writes how many looks there were and a line for each, and nothing where there were none.
#[tactic(auto, using(qtext::proofs::Fronts::front_of_first, qtext::proofs::Fronts::writes_then))]
pub(crate) fn put_boards<W: Write>(out: &mut W, looks: &[Result<Board, LookFault>]) -> Written
    ensures { Writes (W.contents out.old) (W.contents out.new) result (boards_text looks.now) }
{
    put_head(out, looks.len() as u64)?;
    put_looks(out, looks)
}
