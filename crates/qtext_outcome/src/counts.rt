//! Lines of words and counts.
ghost use Rattle.std.specs.Prelude.{◌∷◌, [], map, decimal};
ghost use Rattle.std.specs.List.{concat, flat_map};
ghost use Rattle.qtext.specs.Written.{Writes};
ghost use Rattle.qtext_outcome.specs.Counts.{counts_text};

use qtext::{Piece, Written, put, put_pieces};
use std::io::Write;

/// Writes each of these words and the count behind it.
fn put_each<W: Write>(out: &mut W, counts: &[(&[u8], u64)]) -> Written
    ensures { Writes (W.contents out.old) (W.contents out.new) result
        (flat_map (λ c. concat (c.0.now ∷ decimal c.1 ∷ [])) counts.now) }
{
    for (words, count) in counts {
        put_pieces(out, &[Piece::Text(words), Piece::Number(*count)])?;
    }
    Ok(())
}

/// Writes a line of these words, each with the count behind it.
pub(crate) fn put_counts<W: Write>(out: &mut W, counts: &[(&[u8], u64)]) -> Written
    ensures { Writes (W.contents out.old) (W.contents out.new) result
        (counts_text (map (λ c. (c.0.now, c.1)) counts.now)) }
{
    put_each(out, counts)?;
    put(out, b"\n")
}
