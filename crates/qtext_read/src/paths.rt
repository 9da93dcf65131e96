//! Paths as words of a text, whose bytes they share page by page.
ghost use Rattle.std.specs.Prelude.{◌≡◌, ◌≤◌, ◌↔◌, ◌+◌, length, Ok, IfOk, IfSome, IsTrue};
ghost use Rattle.qtext.specs.Gives.{Gives};
ghost use Rattle.qtext_read.specs.Arguments.{path_of};

use crate::argument::path_of;
use qlanes::are_same_bytes;
use qplain::{NoMemory, Path, SharedItems};
use qtext::ReadFault;
use std::alloc::Global;
use std::marker::Model;

/// How many bytes a page has, but for the last of a text, and for one that begins with a longer path.
const PAGE_BYTES: usize = 4096;

/// A part of a text, whose bytes the paths that stand in it share.
#[derive(Drop)]
struct Page {
    bytes: SharedItems<u8>,
    /// How many bytes of the text are left where it begins.
    left: usize,
}

/// A path that was read, beside its word.
#[derive(Drop)]
struct KeptPath<'a> {
    word: &'a [u8],
    path: Path,
    ghost same: { path_of word.now ≡ Ok path },
}

/// Whether two words are the same. Names of files in a row mostly differ at their ends, so that is looked at first.
#[inline(always)]
fn is_same(word: &[u8], other: &[u8]) -> bool
    ensures { IsTrue result ↔ (word.now ≡ other.now) }
{
    word.len() == other.len() && word.last() == other.last() && are_same_bytes(word, other)
}

/// Reads the paths of a text one after the other. Each shares the bytes of a page of the text with the others that
/// stand there, so that most take no memory; the last one that was spelled as the one before it is kept and not read
/// again. Contracts see how many bytes of the text are left after the words of the next call.
///
/// Where a word stands is told from the end of its line. It is looked up, so that a path is the one that its word
/// spells whatever was told: of a word that stands elsewhere the bytes are copied.
#[derive(Drop)]
pub struct Paths<'a> {
    text: &'a [u8],
    page: Option<Page>,
    kept: Option<KeptPath<'a>>,
    /// The word of the path that was looked up last.
    last: &'a [u8],
    /// How many bytes of the text are left after the words of the next call.
    left: usize,
}

impl<'a> Model for Paths<'a> {
    ghost use Rattle.std.specs.Prelude.{ℕ};

    ghost Value = { ℕ };

    ghost view = { λ p. p.left };
}

impl<'a> Paths<'a> {
    /// Those of a text, before its first line.
    pub fn of(text: &'a [u8]) -> Self
        ensures { result ≡ length text.now }
    {
        Paths {
            text,
            page: None,
            kept: None,
            last: &text[..0],
            left: text.len(),
        }
    }

    /// Those of a line that stands alone: each has bytes of its own.
    pub fn apart() -> Self
        ensures { result ≡ 0 }
    {
        Paths::of(&[])
    }

    /// The same, but for a path that is spelled as this one, which shares its bytes. An Err says that these have 2^63
    /// owners.
    pub fn beside(path: &'a Path) -> Result<Self, NoMemory>
        ensures { IfOk result (λ paths. paths ≡ 0) }
    {
        let word = path.bytes();
        let path = path.copy()?;
        let kept = KeptPath { word, path };
        let mut paths = Paths::apart();
        paths.kept = Some(kept);
        Ok(paths)
    }

    /// Goes to a line, after whose line end these bytes are left.
    pub fn begin_line(&mut self, after: &[u8])
        ensures { self.new ≡ length after.now + 1 }
    {
        self.left = after.len() + 1;
    }

    /// Goes back past the words of a line that stand after its call.
    pub(crate) fn go_before(&mut self, words: &[&[u8]])
        ensures { self.old ≤ self.new }
    {
        let mut bytes = 0usize;
        for word in words {
            bytes = bytes.saturating_add(word.len()).saturating_add(1);
        }
        self.left = self.left.saturating_add(bytes);
    }

    /// The path that this word spells, if the word stands on the page where N bytes of the text are left.
    #[inline(always)]
    fn path_at(&self, left: usize, word: &[u8]) -> Result<Option<Path>, NoMemory>
        ensures { IfOk result (λ path. IfSome path (λ p. path_of word.now ≡ Ok p)) }
    {
        let Some(page) = &self.page else {
            return Ok(None);
        };
        let bytes = page.bytes.as_slice();
        let from = page.left.saturating_sub(left);
        if from > bytes.len() || word.len() > bytes.len() - from {
            return Ok(None);
        }
        let to = from + word.len();
        if are_same_bytes(&bytes[from..to], word) {
            return Path::within(&page.bytes, from, to);
        }
        Ok(None)
    }

    /// The path that this word spells, which is looked up on the page that begins there, where N bytes of the text are
    /// left.
    #[inline(never)]
    fn path_on_next_page(
        &mut self,
        alloc: Global,
        left: usize,
        word: &[u8],
    ) -> Result<Path, ReadFault>
        ensures { Gives result (path_of word.now) }
    {
        if self.text.is_empty() {
            return path_of(alloc, word);
        }
        let text = &self.text[self.text.len().saturating_sub(left)..];
        let many = text.len().min(word.len().max(PAGE_BYTES));
        let bytes = SharedItems::new(Vec::from_slice(alloc, &text[..many])?)?;
        self.page = Some(Page { bytes, left });
        match self.path_at(left, word)? {
            Some(path) => Ok(path),
            None => path_of(alloc, word),
        }
    }

    /// The path that this word spells, after which these words of the call stand: whether it leads anywhere is for the
    /// store to say.
    pub(crate) fn read(
        &mut self,
        alloc: Global,
        word: &'a [u8],
        behind: &[&[u8]],
    ) -> Result<Path, ReadFault>
        ensures { Gives result (path_of word.now) }
    {
        if let Some(kept) = &self.kept {
            if is_same(kept.word, word) {
                return Ok(kept.path.copy()?);
            }
        }
        let mut left = self.left.saturating_add(word.len());
        for word in behind {
            left = left.saturating_add(word.len()).saturating_add(1);
        }
        let path = match self.path_at(left, word)? {
            Some(path) => path,
            None => self.path_on_next_page(alloc, left, word)?,
        };
        if is_same(self.last, word) {
            let kept = path.copy()?;
            self.kept = Some(KeptPath { word, path: kept });
        }
        self.last = word;
        Ok(path)
    }
}
