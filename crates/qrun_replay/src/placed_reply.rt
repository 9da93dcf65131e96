//! Receipts of transcripts.
ghost use Rattle.std.specs.Prelude.{◌≡◌};

use qplain::Reply;
use std::marker::Model;

/// What a line was answered, as a journal has it. Contracts see a receipt.
#[derive(Drop)]
pub struct PlacedReply<'a> {
    place: u64,
    reply: &'a Reply,
}

impl<'a> Model for PlacedReply<'a> {
    ghost use Rattle.qplain.specs.declared.receipt.Receipt.{Receipt};

    ghost Value = { Receipt };

    ghost view = { λ r. record { place = r.place; reply = r.reply.now } };
}

impl<'a> PlacedReply<'a> {
    /// The reply at this place.
    #[inline(always)]
    pub(crate) fn new(place: u64, reply: &'a Reply) -> Self
        ensures { result ≡ record { place = place; reply = reply.now } }
    {
        PlacedReply { place, reply }
    }

    /// The call's place in the journal, from 1.
    pub fn place(&self) -> u64
        ensures { result ≡ self.now.place }
    {
        self.place
    }

    /// The reply.
    pub fn reply(&self) -> &'a Reply
        ensures { result.now ≡ self.now.reply }
    {
        self.reply
    }
}
