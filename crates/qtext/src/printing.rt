ghost use Rattle.std.specs.Prelude.{◌≡◌, ◌≤◌, ◌<◌, ◌+◌, false, length, take, drop, slice_index};
ghost use Rattle.std.specs.List.{prefix_len};
ghost use Rattle.qtext.specs.Words.{is_word_byte};

use qlanes::printing_end;

/// The word that begins there, and where it ends.
pub(crate) fn word_at(text: &[u8], start: usize) -> (&[u8], usize)
    requires { start ≤ length text.now }
    ensures word { result.0.now ≡ take (prefix_len is_word_byte (drop start text.now)) (drop start text.now) }
    ensures end { result.1 ≡ start + prefix_len is_word_byte (drop start text.now) }
    ensures within { result.1 ≤ length text.now }
    ensures stops { result.1 < length text.now → is_word_byte (slice_index text.now result.1) ≡ false }
{
    let end = printing_end(text, start);
    (&text[start..end], end)
}
