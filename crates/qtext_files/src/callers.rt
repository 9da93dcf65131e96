//! Callers as words of a text, each of which is read once where they are few.
ghost use Rattle.std.specs.Prelude.{◌≡◌, Ok, IfOk, IfSome};
ghost use Rattle.qtext.specs.Gives.{Gives};
ghost use Rattle.qtext_read.specs.Callers.{caller_of};

use qlanes::are_same_bytes;
use qplain::{Cred, NoMemory};
use qtext::ReadFault;
use qtext_read::caller_of;
use std::alloc::Global;

/// How many callers are kept, at most.
const PLACES: usize = 64;

/// A caller that was read, beside its word.
#[derive(Drop)]
struct KeptCaller<'a> {
    word: &'a [u8],
    cred: Cred,
    ghost same: { caller_of word.now ≡ Ok cred },
}

/// The place of a caller among those that are kept: the remainder of its first number, if it begins with one.
fn place_of(word: &[u8]) -> usize {
    let mut number = 0usize;
    for byte in word {
        if *byte == b':' {
            break;
        }
        number = number.wrapping_mul(10).wrapping_add(*byte as usize);
    }
    number % PLACES
}

/// Reads callers one after the other, and keeps the last one of each place: mostly the next is the same as the last, or
/// as one before.
#[derive(Drop)]
pub(crate) struct Callers<'a> {
    places: Vec<Option<KeptCaller<'a>>>,
    /// The place of the last one.
    last: usize,
}

impl<'a> Callers<'a> {
    /// With none kept. They take no memory before the first is read.
    pub(crate) fn new(alloc: Global) -> Self {
        Callers {
            places: Vec::new(alloc),
            last: 0,
        }
    }

    /// The caller that this word spells, if it is the one that is kept in the place of the last.
    #[inline(always)]
    fn kept(&self, word: &[u8]) -> Result<Option<Cred>, NoMemory>
        ensures { IfOk result (λ cred. IfSome cred (λ c. caller_of word.now ≡ Ok c)) }
    {
        let Some(Some(kept)) = self.places.get(self.last) else {
            return Ok(None);
        };
        if !are_same_bytes(kept.word, word) {
            return Ok(None);
        }
        Ok(Some(kept.cred.copy()?))
    }

    /// Keeps a caller in the place of the last.
    fn keep(&mut self, word: &'a [u8], cred: Cred) -> Result<(), NoMemory>
        requires { caller_of word.now ≡ Ok cred }
    {
        for _ in self.places.len()..PLACES {
            self.places.push(None)?;
        }
        if let Some(place) = self.places.get_mut(self.last) {
            *place = Some(KeptCaller { word, cred });
        }
        Ok(())
    }

    /// `UID:GID`, then at most 16 times `,GROUP`, all of them ids without leading zeros, or BadCred.
    #[inline(always)]
    pub(crate) fn read(&mut self, alloc: Global, word: &'a [u8]) -> Result<Cred, ReadFault>
        ensures { Gives result (caller_of word.now) }
    {
        if let Some(cred) = self.kept(word)? {
            return Ok(cred);
        }
        self.last = place_of(word);
        if let Some(cred) = self.kept(word)? {
            return Ok(cred);
        }
        let cred = caller_of(alloc, word)?;
        self.keep(word, cred.copy()?)?;
        Ok(cred)
    }
}
