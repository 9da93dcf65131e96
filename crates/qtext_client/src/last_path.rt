//! The path of the line before, which a line shares that asks for the same one.
use qplain::{Call, CallPaths, NoMemory, Path};
use qtext_read::Paths;

/// The paths of a line of these words, which stands alone: it shares the bytes of this one where it is the first.
pub(crate) fn paths_of<'a>(path: Option<&'a Path>, words: &[&[u8]]) -> Result<Paths<'a>, NoMemory> {
    match (path, words) {
        (Some(path), [_, _, _, word, ..]) if path.bytes() == *word => Paths::beside(path),
        _ => Ok(Paths::apart()),
    }
}

/// The path that is kept after a call: its own, or the one before it, where it has none or two.
pub(crate) fn path_after(before: Option<Path>, call: &Call) -> Option<Path> {
    match call.paths() {
        CallPaths::One(path) => path.copy().ok(),
        CallPaths::None | CallPaths::Two(..) => before,
    }
}
