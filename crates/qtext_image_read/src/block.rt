//! A block of a file.
ghost use Rattle.std.specs.Prelude.{◌≡◌, Ok};
ghost use Rattle.hex.specs.Hex.{decode_of};
ghost use Rattle.qtext_image_read.specs.Digits.{bytes_of};

/// A block of a file, of which the bytes are told by hexadecimal digits, two a byte: decoding them cannot fail.
#[derive(Clone, Copy, Debug)]
pub struct BlockRow<'a> {
    pub index: u64,
    pub digits: &'a [u8],
    ghost are: { decode_of digits.now ≡ Ok (bytes_of digits.now) },
}
