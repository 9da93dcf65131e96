//! A write at the end of one file.
ghost use Rattle.std.specs.Prelude.{◌≡◌, ◌+◌, ◌≤◌, length, IfOk, OnErr, OnOk};
ghost use Rattle.qblocks.specs.File.{MoreBlocks, after_write, size_of};

use qblocks::{BlockFile, Input, MAX_SIZE, NoMemory};

/// Writes bytes behind the last one of a file, and says how many blocks that took; without memory it is as before.
pub(crate) fn append(file: &mut BlockFile, bytes: &[u8]) -> Result<u64, NoMemory>
    requires { size_of file.old.file + length bytes.now ≤ MAX_SIZE }
    ensures ok { OnOk result (file.new.file ≡ after_write file.old.file (size_of file.old.file) bytes.now) }
    ensures count { IfOk result (MoreBlocks file.old.file file.new.file) }
    ensures err { OnErr result (file.new.file ≡ file.old.file) }
{
    let end = file.size();
    file.write(end, Input::Bytes(bytes))
}
