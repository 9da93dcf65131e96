ghost use Rattle.std.specs.Prelude.{◌≡◌, ◌≤◌, ◌<◌, ◌+◌, ◌*◌, ◌/◌, ◌%◌, ◌∷◌, ◌++◌, [], length, decimal, codes, IfOk};
ghost use Rattle.hex.specs.Hex.{encode_lower};
ghost use Rattle.qtext.specs.Pieces.{data_text};
ghost use Rattle.qtext.specs.Written.{Passes, Writes};

use crate::hex_digits::encode;
use crate::{Written, put};
use itoa::Buffer;
use std::io::Write;
use std::marker::Model;

/// How many bytes a line holds before it is written.
pub const LINE_ROOM: usize = 1_536;

/// How many bytes may stand before data.
pub const HEAD_ROOM: usize = 1_000;

/// How many bytes a line holds at most after a word.
pub const WORD_ROOM: usize = 480;

/// How many bytes' digits are written at once.
const DATA_PIECE: usize = 256;

/// A line of text that is put together before it is written, so that it goes out by one write.
#[derive(Drop)]
pub struct TextLine {
    bytes: [u8; LINE_ROOM],
    len: usize,
}

impl Model for TextLine {
    ghost use Rattle.std.specs.Prelude.{ℕ, List, take, ◌≤◌};
    ghost use Rattle.qtext.specs.declared.text_line.TheConstants.{LINE_ROOM};

    ghost Value = { List ℕ };

    ghost view = { λ l. take l.len l.bytes };

    ghost invariant = { λ l. l.len ≤ LINE_ROOM };
}

impl TextLine {
    /// A line with nothing in it.
    pub fn new() -> Self
        ensures { result ≡ [] }
    {
        TextLine {
            bytes: [0; LINE_ROOM],
            len: 0,
        }
    }

    /// Leaves nothing in it.
    pub fn clear(&mut self)
        ensures { self.new ≡ [] }
    {
        self.len = 0;
    }

    /// What was put into it.
    pub fn as_slice(&self) -> &[u8]
        ensures value { result.now ≡ self.now }
        ensures few { length result.now ≤ LINE_ROOM }
    {
        &self.bytes[..self.len]
    }

    /// Puts the bytes after what is there.
    pub fn text(&mut self, text: &[u8])
        requires { length self.old + length text.now ≤ LINE_ROOM }
        ensures text { self.new ≡ self.old ++ text.now }
        ensures len { length self.new ≡ length self.old + length text.now }
    {
        let end = self.len + text.len();
        self.bytes[self.len..end].copy_from_slice(text);
        self.len = end;
    }

    /// Puts one byte after what is there.
    pub fn byte(&mut self, byte: u8)
        requires { length self.old < LINE_ROOM }
        ensures byte { self.new ≡ self.old ++ byte ∷ [] }
        ensures len { length self.new ≡ length self.old + 1 }
    {
        self.bytes[self.len] = byte;
        self.len += 1;
    }

    /// Puts two decimal digits after what is there.
    fn pair(&mut self, n: u64)
        requires small { n < 100 }
        requires room { length self.old + 2 ≤ LINE_ROOM }
        ensures text { self.new ≡ self.old ++ (48 + n / 10) ∷ (48 + n % 10) ∷ [] }
        ensures len { length self.new ≡ length self.old + 2 }
    {
        self.byte(b'0' + (n / 10) as u8);
        self.byte(b'0' + (n % 10) as u8);
    }

    /// Puts a number of one or two decimal digits after what is there.
    #[tactic(auto, using(std::proofs::lemmas::Fmt::decimal_digit, itoa::proofs::Decimal::decimal_two))]
    fn small(&mut self, n: u64)
        requires small { n < 100 }
        requires room { length self.old + 2 ≤ LINE_ROOM }
        ensures text { self.new ≡ self.old ++ decimal n }
        ensures short { length self.new ≤ length self.old + 2 }
    {
        if n < 10 {
            self.byte(b'0' + n as u8);
        } else {
            self.pair(n);
        }
    }

    /// Puts a number in decimal digits after what is there. One digit is put in line.
    #[inline(always)]
    #[tactic(auto, using(std::proofs::lemmas::Fmt::decimal_digit))]
    pub fn number(&mut self, n: u64)
        requires { length self.old + 20 ≤ LINE_ROOM }
        ensures text { self.new ≡ self.old ++ decimal n }
        ensures short { length self.new ≤ length self.old + 20 }
    {
        if n <= 9 {
            self.byte(b'0' + n as u8);
        } else {
            self.long(n);
        }
    }

    /// Puts a number of any length in decimal digits after what is there.
    fn long(&mut self, n: u64)
        requires { length self.old + 20 ≤ LINE_ROOM }
        ensures text { self.new ≡ self.old ++ decimal n }
        ensures short { length self.new ≤ length self.old + 20 }
    {
        if n < 100 {
            self.small(n);
            return;
        }
        if n < 10_000 {
            self.small(n / 100);
            self.pair(n % 100);
            return;
        }
        let mut buffer = Buffer::new();
        self.text(buffer.format(n).as_bytes());
    }

    /// Puts a space and a number in decimal digits after what is there.
    pub fn field(&mut self, n: u64)
        requires { length self.old + 21 ≤ LINE_ROOM }
        ensures text { self.new ≡ self.old ++ 32 ∷ decimal n }
        ensures short { length self.new ≤ length self.old + 21 }
    {
        self.byte(b' ');
        self.number(n);
    }

    /// Puts two lower case hexadecimal digits a byte after what is there.
    pub fn digits(&mut self, bytes: &[u8])
        requires { length self.old + 2 * length bytes.now ≤ LINE_ROOM }
        ensures text { self.new ≡ self.old ++ encode_lower bytes.now }
        ensures len { length self.new ≡ length self.old + 2 * length bytes.now }
    {
        let end = self.len + 2 * bytes.len();
        encode(bytes, &mut self.bytes[self.len..end]);
        self.len = end;
    }

    /// Writes what was put into it and a line end, at once where the writer takes all of it.
    pub fn put_end<W: Write>(&mut self, out: &mut W) -> Written
        requires { length self.old < LINE_ROOM }
        ensures { Writes (W.contents out.old) (W.contents out.new) result (self.old ++ codes "\n") }
    {
        self.byte(b'\n');
        put(out, self.as_slice())
    }

    /// Writes what was put into it, of which nothing is left in it.
    pub fn put_all<W: Write>(&mut self, out: &mut W) -> Written
        ensures passes { Passes (W.contents out.old) (W.contents out.new) result self.old self.new }
        ensures none { IfOk result (λ _. self.new ≡ []) }
    {
        put(out, self.as_slice())?;
        self.clear();
        Ok(())
    }

    /// Leaves room for what comes: where it has more than `WORD_ROOM` bytes, they are written.
    pub fn put_full<W: Write>(&mut self, out: &mut W) -> Written
        ensures passes { Passes (W.contents out.old) (W.contents out.new) result self.old self.new }
        ensures short { IfOk result (λ _. length self.new ≤ WORD_ROOM) }
    {
        if self.len <= WORD_ROOM {
            return Ok(());
        }
        self.put_all(out)
    }

    /// Puts a word of any length after what is there. What there is no room for is written.
    pub fn put_word<W: Write>(&mut self, out: &mut W, word: &[u8]) -> Written
        ensures passes { Passes (W.contents out.old) (W.contents out.new) result (self.old ++ word.now) self.new }
        ensures short { IfOk result (λ _. length self.new ≤ WORD_ROOM) }
    {
        if self.len + word.len() <= WORD_ROOM {
            self.text(word);
            return Ok(());
        }
        self.put_all(out)?;
        put(out, word)
    }

    /// Puts two lower case hexadecimal digits a byte after what is there. All but the last are written where there are
    /// more than a piece.
    fn put_digits<W: Write>(&mut self, out: &mut W, bytes: &[u8]) -> Written
        requires { length self.old ≤ HEAD_ROOM }
        ensures passes { Passes (W.contents out.old) (W.contents out.new) result
            (self.old ++ encode_lower bytes.now) self.new }
        ensures room { IfOk result (λ _. length self.new < LINE_ROOM) }
    {
        let mut rest = bytes;
        while rest.len() > DATA_PIECE {
            let (piece, after) = rest.split_at(DATA_PIECE);
            self.digits(piece);
            self.put_all(out)?;
            rest = after;
        }
        self.digits(rest);
        Ok(())
    }

    /// Puts bytes as lower case hexadecimal digits, or `-` for none, after what is there. What there is no room for is
    /// written.
    pub fn put_data<W: Write>(&mut self, out: &mut W, bytes: &[u8]) -> Written
        requires { length self.old ≤ HEAD_ROOM }
        ensures passes { Passes (W.contents out.old) (W.contents out.new) result
            (self.old ++ data_text bytes.now) self.new }
        ensures room { IfOk result (λ _. length self.new < LINE_ROOM) }
    {
        if bytes.is_empty() {
            self.byte(b'-');
            return Ok(());
        }
        self.put_digits(out, bytes)
    }
}
