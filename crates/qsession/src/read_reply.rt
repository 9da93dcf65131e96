//! What a read into a buffer comes to.
ghost use Rattle.std.specs.Prelude.{◌≡◌, ◌≤◌, IfOk, length, take, true};
ghost use Rattle.qsession.specs.Answers.{tells_bytes};
ghost use Rattle.qsession.specs.ReadReplies.{answer_with, count_in};

use crate::fault::Fault;
use qplain::{Refusal, Reply};

/// What a read into a buffer came to: so many bytes, which stand at its front, or a refusal.
#[derive(Clone, Copy)]
pub enum ReadReply {
    Bytes(usize),
    Refused(Refusal),
}

/// Puts bytes at the front of a buffer, and tells how many there are.
fn put_bytes(bytes: &[u8], buffer: &mut [u8]) -> usize
    requires room { length bytes.now ≤ length buffer.old }
    ensures bytes { bytes.now ≡ take result buffer.new }
    ensures count { result ≡ length bytes.now }
{
    let count = bytes.len();
    buffer[..count].copy_from_slice(bytes);
    count
}

/// Puts the bytes of an answer to a read at the front of a buffer.
pub(crate) fn put_answer(
    answer: Result<Reply, Fault>,
    buffer: &mut [u8],
) -> Result<ReadReply, Fault>
    requires { IfOk answer (λ reply. tells_bytes (length buffer.old) reply ≡ true) }
    ensures answer { answer ≡ answer_with buffer.new result }
    ensures room { IfOk result (λ reply. count_in reply ≤ length buffer.old) }
{
    match answer {
        Ok(Reply::Bytes(bytes)) => Ok(ReadReply::Bytes(put_bytes(bytes.as_slice(), buffer))),
        Ok(Reply::Refused(refusal)) => Ok(ReadReply::Refused(refusal)),
        Ok(_) => unreachable!(),
        Err(fault) => Err(fault),
    }
}
