/// A piece of a line of text.
#[derive(Clone, Copy, Debug)]
pub enum Piece<'a> {
    /// The bytes as they are.
    Text(&'a [u8]),
    /// A number in decimal digits.
    Number(u64),
    /// A byte in two lower case hexadecimal digits.
    Byte(u8),
    /// A text at the left of that many places, a character each; a longer one stands whole.
    Left(&'a [u8], usize),
    /// A text at the right of that many places, a character each; a longer one stands whole.
    Right(&'a [u8], usize),
    /// A number in decimal digits at the right of that many places.
    RightNumber(u128, usize),
}
