//! A call of a store.
ghost use Rattle.std.specs.Prelude.{◌≡◌, IfOk, OnErr};
ghost use Rattle.qplain.specs.declared.call.Call.TheVariants.{Create};
ghost use Rattle.qplain.specs.Step.{step};

use qstore::{Cred, NoMemory, Path, Reply, Store};

/// Makes an empty file: what is answered, and what the store is then, is the plain machine's; without memory the store
/// is as before.
pub(crate) fn create(
    store: &mut Store,
    cred: &Cred,
    moment: u64,
    path: &Path,
) -> Result<Reply, NoMemory>
    ensures ok { IfOk result (λ reply.
        (store.new.state, reply) ≡ step store.old.state cred.now moment (Create path.now)) }
    ensures err { OnErr result (store.new.state ≡ store.old.state) }
{
    store.create(cred, moment, path.text())
}
