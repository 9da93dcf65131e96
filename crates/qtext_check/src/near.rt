//! Words that are nearly another.
ghost use Rattle.std.specs.Prelude.{map, Contains, IfSome};

fn is_same(one: u8, other: u8) -> bool {
    one.to_ascii_lowercase() == other.to_ascii_lowercase()
}

/// What is left of two words behind the bytes with which both begin.
fn without_front<'a, 'b>(word: &'a [u8], other: &'b [u8]) -> (&'a [u8], &'b [u8]) {
    match (word, other) {
        ([first, word @ ..], [begin, other @ ..]) if is_same(*first, *begin) => {
            without_front(word, other)
        }
        _ => (word, other),
    }
}

/// What is left of two words before the bytes with which both end.
fn without_back<'a, 'b>(word: &'a [u8], other: &'b [u8]) -> (&'a [u8], &'b [u8]) {
    match (word, other) {
        ([word @ .., last], [other @ .., end]) if is_same(*last, *end) => without_back(word, other),
        _ => (word, other),
    }
}

/// The most bytes in which a word may differ from one that it is nearly.
pub(crate) const MOST_DIFFERING: usize = 2;

/// How many bytes differ in one place of two words, whatever their case: as many as the word has there that has more.
pub(crate) fn difference(word: &[u8], other: &[u8]) -> usize {
    let (word, other) = without_front(word, other);
    let (word, other) = without_back(word, other);
    word.len().max(other.len())
}

/// The first of the known words from which a word differs by at most so many bytes.
fn within<'a>(word: &[u8], known: &[&'a str], most: usize) -> Option<&'a str>
    ensures { IfSome result (λ near. Contains (map (λ k. k.now) known.now) near.now) }
{
    for other in known {
        if difference(word, other.as_bytes()) <= most {
            return Some(*other);
        }
    }
    None
}

/// The first of the known words that ends with a word.
fn ending_with<'a>(word: &[u8], known: &[&'a str]) -> Option<&'a str>
    ensures { IfSome result (λ near. Contains (map (λ k. k.now) known.now) near.now) }
{
    for other in known {
        if !word.is_empty() && other.as_bytes().ends_with(word) {
            return Some(*other);
        }
    }
    None
}

/// The known word that a word is nearly: the first of those from which it differs least, by at most two bytes in one
/// place, whatever their case, or else the first that ends with it.
pub fn near_of<'a>(word: &[u8], known: &[&'a str]) -> Option<&'a str>
    ensures { IfSome result (λ near. Contains (map (λ k. k.now) known.now) near.now) }
{
    for most in 0..=MOST_DIFFERING {
        match within(word, known, most) {
            Some(near) => return Some(near),
            None => {}
        }
    }
    ending_with(word, known)
}
