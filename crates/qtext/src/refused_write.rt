/// The writer refused: it failed, or it took no byte. Some beginning of the text went out.
#[derive(Clone, Copy, Debug, PartialEq, Eq)]
pub struct RefusedWrite;
