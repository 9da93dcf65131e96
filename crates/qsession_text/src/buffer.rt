//! Buffers that a caller of another language lends.
ghost use Rattle.qsession.specs.Tellings.{IsPut};

use qsession::Fault;

/// Puts a text at the front of the buffer, if it has room, and tells in any case how many bytes there are.
///
/// Returns 0, or the number of Room.
pub(crate) fn put_text(text: &[u8], buffer: &mut [u8], len: &mut usize) -> u32
    ensures { IsPut text.now buffer.new len.new result }
{
    let count = text.len();
    *len = count;
    if count > buffer.len() {
        return Fault::Room.code();
    }
    buffer[..count].copy_from_slice(text);
    0
}
