use crate::Reply;

/// What a journaled call is answered: its place in the journal, from 1, and the reply.
#[derive(Debug, PartialEq, Eq, Drop)]
pub struct Receipt {
    pub place: u64,
    pub reply: Reply,
}
