//! Bytes as hexadecimal digits.
ghost use Rattle.qtext.specs.Gives.{Gives};
ghost use Rattle.qtext.specs.Data.{data_of, byte_of};

use crate::hex_bytes::decode;
use crate::{ReadFault, TextKind};
use qrules::Items;
use std::alloc::Global;

/// A dash for no bytes, else two hexadecimal digits a byte, in either case.
#[tactic(auto, unfolding(crate::specs::Data::data_of))]
pub fn data_of(alloc: Global, word: &[u8]) -> Result<Items<u8>, ReadFault>
    ensures { Gives result (data_of word.now) }
{
    if word == b"-".as_slice() {
        return Ok(Items::new(Vec::new(alloc)));
    }
    if word.is_empty() {
        return Err(ReadFault::Fault(TextKind::BadHex));
    }
    decode(alloc, word)
}

/// One byte in two hexadecimal digits.
#[tactic(auto, unfolding(crate::specs::Data::byte_of))]
pub fn byte_of(word: &[u8]) -> Result<u8, ReadFault>
    ensures { Gives result (byte_of word.now) }
{
    let mut byte = [0u8; 1];
    match hex::decode_to_slice(word, &mut byte) {
        Ok(()) => Ok(byte[0]),
        Err(_) => Err(ReadFault::Fault(TextKind::BadHex)),
    }
}
