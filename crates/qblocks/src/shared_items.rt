ghost use Rattle.std.specs.Prelude.{◌≡◌, IfOk};
ghost use Rattle.std.proofs.Common.{rules};
ghost use Rattle.std.specs.Cmp.Lexicographic.{pointwise};
ghost use Rattle.std.specs.Cmp.Rules.{comparing};

use crate::NoMemory;
use std::marker::Model;
use std::sync::ArcSlice;

/// Values in a row that may have several owners, which contracts see as a list. Nobody sees how many owners there are.
#[derive(Debug, Drop)]
pub struct SharedItems<T> {
    items: ArcSlice<T>,
}

impl<T> Model for SharedItems<T> {
    ghost use Rattle.std.specs.Prelude.{List};
    ghost use Rattle.std.specs.Arc.{arc_slice_items};

    ghost Value = { List T };

    ghost view = { λ s. arc_slice_items s.items };
}

impl<T: Drop> SharedItems<T> {
    /// The values of a `Vec`, in their order. They are not copied; the memory is that of the count of owners alone.
    pub fn new(items: Vec<T>) -> Result<Self, NoMemory>
        ensures { IfOk result (λ shared. shared ≡ items.items) }
    {
        let items = ArcSlice::from_vec(items)?;
        Ok(SharedItems { items })
    }

    /// The same values for one more owner. No value is copied, and no memory is taken: an Err says that there are 2^63
    /// owners.
    pub fn copy(&self) -> Result<Self, NoMemory>
        ensures { IfOk result (λ copy. copy ≡ self.now) }
    {
        let items = self.items.clone()?;
        Ok(SharedItems { items })
    }
}

impl<T> SharedItems<T> {
    /// The values, in their order.
    pub fn as_slice(&self) -> &[T]
        ensures { result.now ≡ self.now }
    {
        self.items.as_slice()
    }
}

impl<T: PartialEq> PartialEq for SharedItems<T> {
    ghost eq = { pointwise T.eq };

    ghost laws = { Prim.search (comparing, rules) };

    fn eq(&self, other: &SharedItems<T>) -> bool {
        self.items.as_slice() == other.items.as_slice()
    }
}

impl<T: Eq> Eq for SharedItems<T> {
    ghost laws = { Prim.search (comparing, rules) };
}
