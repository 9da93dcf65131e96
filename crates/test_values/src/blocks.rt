//! What no script does with a file: sizes past the store's limit, and each allocation refused in turn.

use qblocks::{BlockFile, Input, MAX_SIZE, NoMemory};
use std::io::Print;
use std::process::Abort;

/// Whether a file has so many blocks and bytes, and reads so from this offset on.
fn is_so(
    file: &BlockFile,
    blocks: u64,
    size: u64,
    off: u64,
    bytes: &[u8],
) -> Result<bool, NoMemory> {
    let read = file.read(off, 99)?;
    Ok(file.allocated() == blocks && file.size() == size && read.as_slice() == bytes)
}

/// Writes the last byte that a file may have. It tells how many blocks that took, and whether it is read again.
fn write_last(file: &mut BlockFile) -> Result<(u64, bool), NoMemory> {
    let blocks = file.write(MAX_SIZE - 1, Input::Bytes(b"z"))?;
    let is_kept = is_so(file, 1, 1_099_511_627_776, MAX_SIZE - 3, b"\0\0z")?;
    Ok((blocks, is_kept))
}

#[test]
fn the_last_byte_below_the_limit_is_kept(rt: HostRuntime) -> Result<(), NoMemory> {
    let mut file = BlockFile::new(rt.alloc());
    let written = write_last(&mut file)?;
    let freed = [file.truncate(MAX_SIZE - 1), file.truncate(MAX_SIZE - 4096)];
    assert_eq!(rt; (written, freed), ((1, true), [0, 1]));
    Ok(())
}

/// Makes a write ready, and puts it. It tells how many blocks the file had before, and how many that took.
fn ready_and_put(file: &mut BlockFile) -> Result<(u64, u64), NoMemory> {
    let spare = file.ready(65_530, 12)?;
    let before = file.allocated();
    Ok((
        before,
        file.put(65_530, Input::Bytes(b"abcdefghijkl"), spare),
    ))
}

/// Makes another write ready and drops it, and then puts one.
fn drop_and_put(file: &mut BlockFile) -> Result<(u64, u64), NoMemory> {
    drop(file.ready(100, 200_000)?);
    ready_and_put(file)
}

#[test]
fn what_was_made_ready_is_put(rt: HostRuntime) -> Result<(), NoMemory> {
    let mut file = BlockFile::new(rt.alloc());
    let put = drop_and_put(&mut file)?;
    let is_put = is_so(&file, 2, 65_542, 65_534, b"efghijkl")?;
    assert_eq!(rt; (put, is_put), ((0, 2), true));
    Ok(())
}

/// Tells `checks/allocations` that this run has refused an allocation of the test.
fn tell_refused(rt: &impl Print) {
    let _ = println!(rt; "an allocation was refused");
}

/// Writes to an empty file.
fn write_first(rt: &(impl Abort + Print), file: &mut BlockFile) -> Result<(), NoMemory> {
    if file.write(0, Input::Bytes(b"abc")).is_err() {
        tell_refused(rt);
        assert!(rt; is_so(file, 0, 0, 0, b"")? && file.write(0, Input::Bytes(b"abc"))? == 1);
    }
    Ok(())
}

/// Makes a write ready once more, behind a refusal and one that is dropped, which leaves nothing. It tells what was
/// put, or nothing where the file was changed.
fn put_again(file: &mut BlockFile) -> Result<Option<(u64, u64)>, NoMemory> {
    let is_kept = is_so(file, 1, 3, 0, b"abc")?;
    drop(file.ready(65_530, 12)?);
    if is_kept && is_so(file, 1, 3, 0, b"abc")? {
        return Ok(Some(ready_and_put(file)?));
    }
    Ok(None)
}

/// Makes a write ready and puts it.
fn put_second(rt: &(impl Abort + Print), file: &mut BlockFile) -> Result<(), NoMemory> {
    let put = match ready_and_put(file) {
        Ok(put) => Some(put),
        Err(_) => {
            tell_refused(rt);
            put_again(file)?
        }
    };
    assert_eq!(rt; put, Some((1, 2)));
    Ok(())
}

/// Writes where blocks are, and behind them.
fn write_third(rt: &(impl Abort + Print), file: &mut BlockFile) -> Result<(), NoMemory> {
    if file.write(69_630, Input::Bytes(b"wxyz")).is_err() {
        tell_refused(rt);
        assert!(rt; is_so(file, 3, 65_542, 65_530, b"abcdefghijkl")?);
        file.write(69_630, Input::Bytes(b"wxyz"))?;
    }
    Ok(())
}

/// Whether the file is as all writes leave it. Where an allocation is refused, it is read once more.
fn is_written(rt: &impl Print, file: &BlockFile) -> Result<bool, NoMemory> {
    match is_so(file, 4, 69_634, 69_629, b"\0wxyz") {
        Err(_) => {
            tell_refused(rt);
            is_so(file, 4, 69_634, 69_629, b"\0wxyz")
        }
        is_written => is_written,
    }
}

/// Makes each call that takes memory. It tells whether the file is then as the writes leave it.
fn call_all(rt: &(impl Abort + Print), file: &mut BlockFile) -> Result<bool, NoMemory> {
    write_first(rt, file)?;
    put_second(rt, file)?;
    write_third(rt, file)?;
    is_written(rt, file)
}

// Run with the Nth allocation refused: the refused call leaves the file as it was, and the same
// call then succeeds.
#[test]
fn a_refused_call_changes_nothing(rt: HostRuntime) -> Result<(), NoMemory> {
    let mut file = BlockFile::new(rt.alloc());
    assert!(rt; call_all(&rt, &mut file)?);
    Ok(())
}
