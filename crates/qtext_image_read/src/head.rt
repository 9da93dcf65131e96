//! The first line of an image.
ghost use Rattle.std.specs.Prelude.{◌≡◌, ◌∷◌, [], true, map};
ghost use Rattle.std.specs.List.{list_all};
ghost use Rattle.qtext.specs.Words.{is_text_byte, words as words_of};
ghost use Rattle.qtext_image.specs.Images.{head_in};
ghost use Rattle.qtext_image_read.specs.Lines.{TellsHead, head_of};

use qplain::Edition;
use qtext::{ReadFault, TextKind, number_of};
use qtext_files::{NextLine, edition_of, head_keyword};

/// The most calls before an image.
const MAX_PLACE: u64 = 1 << 63;

/// What the first line tells: the edition, and how many calls there were before the image, at most 2^63.
#[derive(Clone, Copy, Debug)]
pub struct ImageHead {
    pub edition: Edition,
    pub place: u64,
}

/// `quotafs image E at PLACE`, each by itself.
#[tactic(auto, unfolding(qtext_image::specs::Images::head_in))]
fn head_told(
    program: &[u8],
    image: &[u8],
    edition: &[u8],
    at: &[u8],
    place: &[u8],
) -> Result<ImageHead, ReadFault>
    ensures { TellsHead result (head_in (program.now ∷ image.now ∷ edition.now ∷ at.now ∷ place.now ∷ [])) }
{
    head_keyword(b"quotafs", program)?;
    head_keyword(b"image", image)?;
    let edition = edition_of(edition)?;
    head_keyword(b"at", at)?;
    let place = number_of(TextKind::BadHead, MAX_PLACE, place)?;
    Ok(ImageHead { edition, place })
}

/// `quotafs image E at PLACE`.
#[tactic(auto, unfolding(qtext_image::specs::Images::head_in))]
fn head_in(words: &[&[u8]]) -> Result<ImageHead, ReadFault>
    ensures { TellsHead result (head_in (map (λ word. word.now) words.now)) }
{
    match words {
        [program, image, edition, at, place] => head_told(program, image, edition, at, place),
        _ => Err(ReadFault::Fault(TextKind::BadHead)),
    }
}

/// What the first line of an image tells, as `next_line` cut it, or the first thing wrong in it: no line feed, a byte
/// outside 0x20 to 0x7E, the head. O(bytes), no memory; an Err gives nothing.
#[tactic(auto, unfolding(crate::specs::Lines::head_of, qtext_image::specs::Images::words_of))]
pub fn read_head(line: &NextLine, words: &[&[u8]]) -> Result<ImageHead, ReadFault>
    // The line was cut into these words, if it is text.
    requires bytes { line.now.is_text ≡ list_all is_text_byte line.now.bytes.now }
    requires words { line.now.is_text ≡ true → map (λ word. word.now) words.now ≡ words_of line.now.bytes.now }

    // What it tells.
    ensures exact { TellsHead result
        (head_of (record { number = 1; bytes = line.now.bytes.now; whole = line.now.whole })) }
{
    if !line.whole {
        return Err(ReadFault::Fault(TextKind::Cut));
    }
    if !line.is_text {
        return Err(ReadFault::Fault(TextKind::BadByte));
    }
    head_in(words)
}
