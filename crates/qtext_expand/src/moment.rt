//! Moments, told by themselves or as so much later.
ghost use Rattle.std.specs.Prelude.{◌≡◌, map, IfOk};
ghost use Rattle.qtext.specs.Pieces.{piece_text};
ghost use Rattle.qtext_expand.specs.Moments.{begins_moment, is_moment, later, moment_in, timed};

use crate::caller::is_caller;
use crate::value::{Measure, value};
use crate::words::begins;
use qtext::Piece;
use std::alloc::AllocError;

fn later(when: u64, span: Option<u64>) -> Option<u64>
    ensures { result ≡ later when span }
{
    match span {
        Some(span) => when.checked_add(span),
        None => None,
    }
}

/// The moment that a word tells, where the clock stands at `when`.
#[tactic(auto, unfolding(crate::specs::Moments::moment_in))]
pub(crate) fn moment_in(when: u64, word: &[u8]) -> Result<Option<u64>, AllocError>
    ensures { IfOk result (λ n. n ≡ moment_in when word.now) }
{
    if begins(b'+', word) {
        let span = value(Measure::Seconds, word.split_at(1).1)?;
        return Ok(later(when, span));
    }
    value(Measure::Seconds, word)
}

fn is_moment(word: &[u8]) -> bool
    ensures { result ≡ is_moment word.now }
{
    begins_moment(word) && !is_caller(word)
}

fn begins_moment(word: &[u8]) -> bool
    ensures { result ≡ begins_moment word.now }
{
    match word {
        [] => false,
        [first, ..] => *first == b'+' || first.is_ascii_digit(),
    }
}

/// Where the clock stands, the text of that, and the words that follow.
#[derive(Clone, Copy)]
pub(crate) struct Timed<'a, 'w> {
    pub(crate) when: u64,
    pub(crate) moment: Piece<'a>,
    pub(crate) rest: &'w [&'a [u8]],
}

/// A line's moment, and what follows: where it tells none, the clock stands as it did.
#[tactic(auto, unfolding(crate::specs::Moments::timed))]
pub(crate) fn split_moment<'a, 'w>(
    when: u64,
    words: &'w [&'a [u8]],
) -> Result<Timed<'a, 'w>, AllocError>
    ensures when { IfOk result (λ t. t.when ≡ (timed when (map (λ word. word.now) words.now)).when) }
    ensures moment { IfOk result (λ t. piece_text t.moment ≡ (timed when (map (λ word. word.now) words.now)).moment) }
    ensures rest { IfOk result (λ t. map (λ word. word.now) t.rest.now
        ≡ (timed when (map (λ word. word.now) words.now)).rest) }
{
    let still = Timed {
        when,
        moment: Piece::Number(when),
        rest: words,
    };
    match words {
        [first, rest @ ..] if is_moment(first) => match moment_in(when, first)? {
            Some(n) => Ok(Timed {
                when: n,
                moment: Piece::Number(n),
                rest,
            }),
            None => Ok(Timed {
                when,
                moment: Piece::Text(first),
                rest,
            }),
        },
        _ => Ok(still),
    }
}
