//! By what grace ends are made.
use qrules::Graces;

/// How long graces are, and the moment of the call.
#[derive(Clone, Copy)]
pub(crate) struct Times {
    pub(crate) graces: Graces,
    pub(crate) moment: u64,
}
