//! In which form a journaled call is answered.
ghost use Rattle.std.specs.Prelude.{◌≡◌, IfOk};
ghost use Rattle.qplain.specs.declared.receipt.Receipt.{Receipt as ReceiptValue};

use crate::{NoMemory, Receipt, Reply};

/// In which form a journaled call is answered: by its receipt, or by its place alone, for which no reply is copied.
pub trait ReceiptForm: Drop {
    /// The receipt in this form.
    ghost form: { ReceiptValue → Self };

    /// The receipt of a call at this place with this reply, in this form. An Err is out of memory.
    fn of(place: u64, reply: &Reply) -> Result<Self, NoMemory>
    where
        Self: Sized,
        ensures { IfOk result (λ f. f ≡ form (record { place = place; reply = reply.now })) };
}

impl ReceiptForm for Receipt {
    ghost form = { λ receipt. receipt };

    #[inline(always)]
    fn of(place: u64, reply: &Reply) -> Result<Receipt, NoMemory> {
        Ok(Receipt {
            place,
            reply: reply.copy()?,
        })
    }
}

impl ReceiptForm for u64 {
    ghost form = { λ receipt. receipt.place };

    #[inline(always)]
    fn of(place: u64, _reply: &Reply) -> Result<u64, NoMemory> {
        Ok(place)
    }
}
