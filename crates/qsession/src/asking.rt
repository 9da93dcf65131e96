//! What a caller of another language brings to a call: bytes, which are copied, and numbers.
ghost use Rattle.std.specs.Prelude.{◌≡◌, ◌<◌, ◌↔◌, Err, IsErr, IfOk, IfErr};
ghost use Rattle.qplain.specs.Paths.{ArePathBytes};
ghost use Rattle.qsession.specs.Requests.{kind_in};
ghost use Rattle.qsession.specs.Brought.{IsCauseOfPath};

use crate::fault::Fault;
use qplain::{Data, Path, SharedItems};
use qrules::Kind;
use std::alloc::Global;

/// The path of these bytes, which are copied. Err is Path where they are none, before Memory.
pub fn path_of(alloc: Global, bytes: &[u8]) -> Result<Path, Fault>
    ensures path { IfOk result (λ path. path ≡ bytes.now) }
    ensures form { (result ≡ Err Fault.Path) ↔ (ArePathBytes bytes.now → ⊥) }
    ensures fault { IfErr result (IsCauseOfPath bytes.now) }
{
    match Path::new(alloc, bytes) {
        Ok(Some(path)) => Ok(path),
        Ok(None) => Err(Fault::Path),
        Err(_) => Err(Fault::Memory),
    }
}

/// The bytes of a write, which are copied. Err is Memory.
pub fn data_of(alloc: Global, bytes: &[u8]) -> Result<Data, Fault>
    ensures bytes { IfOk result (λ copied. copied ≡ bytes.now) }
    ensures fault { IfErr result (λ fault. fault ≡ Fault.Memory) }
{
    let Ok(items) = Vec::from_slice(alloc, bytes) else {
        return Err(Fault::Memory);
    };
    match SharedItems::new(items) {
        Ok(shared) => Ok(Data::new(shared)),
        Err(_) => Err(Fault::Memory),
    }
}

/// Whose record it is: 0 a user's, 1 a group's, 2 a project's. Any other number is no kind.
pub fn kind_of(number: u32) -> Result<Kind, Fault>
    ensures kind { IfOk result (λ kind. kind ≡ kind_in number) }
    ensures known { IsErr result ↔ (2 < number) }
    ensures fault { IfErr result (λ fault. fault ≡ Fault.Kind) }
{
    match number {
        0 => Ok(Kind::User),
        1 => Ok(Kind::Group),
        2 => Ok(Kind::Project),
        _ => Err(Fault::Kind),
    }
}
