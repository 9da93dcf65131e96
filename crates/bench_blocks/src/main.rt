//! What the calls of a `BlockFile` cost: each case stands in a function of its own, whose
//! instructions `bench/blocks` counts.
#![tactic(auto)]

ghost use Rattle.std.specs.Prelude.{◌≡◌, ◌+◌, ◌*◌, ◌^◌, ◌<◌, ◌≤◌, length, IfOk};

use qblocks::{BLOCK_SIZE, BlockFile, Input, NoMemory};
use std::alloc::Global;
use std::io;

const CHUNK: u64 = 65536;

/// The size of the largest file.
const LARGEST: u64 = 1 << 40;

const FILL: Input = Input::Fill {
    count: CHUNK,
    byte: 7,
};

#[inline(never)]
fn copy_chunk(to: &mut [u8], from: &[u8], times: u64)
    requires { length from.now ≡ length to.old }
{
    for _ in 0..times {
        to.copy_from_slice(from);
    }
}

#[inline(never)]
fn copy_chunk_by_blocks(to: &mut [u8], from: &[u8], times: u64)
    requires { length from.now ≡ length to.old }
{
    for _ in 0..times {
        for k in 0..to.len() / 4096 {
            to[k * 4096..k * 4096 + 4096].copy_from_slice(&from[k * 4096..k * 4096 + 4096]);
        }
    }
}

#[inline(never)]
fn write_new_chunks(file: &mut BlockFile, chunk: &[u8], times: u64) -> Result<u64, NoMemory>
    requires chunk { length chunk.now ≡ CHUNK }
    requires times { times ≤ 2 ^ 20 }
{
    let mut fresh = 0u64;
    for i in 0..times {
        fresh = fresh.wrapping_add(file.write(i * CHUNK, Input::Bytes(chunk))?);
    }
    Ok(fresh)
}

#[inline(never)]
fn overwrite_chunk(file: &mut BlockFile, chunk: &[u8], times: u64) -> Result<u64, NoMemory>
    requires { length chunk.now ≡ CHUNK }
{
    let mut fresh = 0u64;
    for _ in 0..times {
        fresh = fresh.wrapping_add(file.write(CHUNK, Input::Bytes(chunk))?);
    }
    Ok(fresh)
}

#[inline(never)]
fn overwrite_across_rows(file: &mut BlockFile, chunk: &[u8], times: u64) -> Result<u64, NoMemory>
    requires { length chunk.now ≡ CHUNK }
{
    let mut fresh = 0u64;
    for _ in 0..times {
        fresh = fresh.wrapping_add(file.write(CHUNK + 100, Input::Bytes(chunk))?);
    }
    Ok(fresh)
}

#[inline(never)]
fn fill_new_chunks(file: &mut BlockFile, times: u64) -> Result<u64, NoMemory>
    requires { times ≤ 2 ^ 20 }
{
    let mut fresh = 0u64;
    for i in 0..times {
        fresh = fresh.wrapping_add(file.write(i * CHUNK, FILL)?);
    }
    Ok(fresh)
}

#[inline(never)]
fn refill_chunk(file: &mut BlockFile, times: u64) -> Result<u64, NoMemory> {
    let mut fresh = 0u64;
    for _ in 0..times {
        fresh = fresh.wrapping_add(file.write(CHUNK, FILL)?);
    }
    Ok(fresh)
}

#[inline(never)]
fn write_bytes_far_apart(file: &mut BlockFile, times: u64) -> Result<u64, NoMemory> {
    let mut fresh = 0u64;
    for i in 0..times {
        let at = i.wrapping_mul(2_654_435_761) % 16384;
        fresh = fresh.wrapping_add(file.write(at * CHUNK + 7, Input::Bytes(b"z"))?);
    }
    Ok(fresh)
}

#[inline(never)]
fn write_bytes_at_the_front(file: &mut BlockFile, times: u64) -> Result<u64, NoMemory>
    requires { times ≤ 2 ^ 20 }
{
    let mut fresh = 0u64;
    for i in 0..times {
        fresh = fresh.wrapping_add(file.write(i * CHUNK, Input::Bytes(b"z"))?);
    }
    Ok(fresh)
}

#[inline(never)]
fn write_bytes_at_the_far_end(file: &mut BlockFile, times: u64) -> Result<u64, NoMemory>
    requires { times ≤ 2 ^ 20 }
{
    let mut fresh = 0u64;
    for i in 0..times {
        fresh = fresh.wrapping_add(file.write(LARGEST - (times - i) * CHUNK, Input::Bytes(b"z"))?);
    }
    Ok(fresh)
}

#[inline(never)]
fn truncate_far_blocks(file: &mut BlockFile) -> u64 {
    file.truncate(2 * BLOCK_SIZE)
}

#[inline(never)]
fn read_chunk(file: &BlockFile, times: u64) -> Result<u64, NoMemory> {
    let mut total = 0u64;
    for _ in 0..times {
        total = total.wrapping_add(file.read(CHUNK, CHUNK)?.len() as u64);
    }
    Ok(total)
}

#[inline(never)]
fn missing_in_chunk(file: &BlockFile, times: u64) -> u64
    requires { times ≤ 2 ^ 20 }
{
    let mut total = 0u64;
    for i in 0..times {
        total = total.wrapping_add(file.missing(i * CHUNK, CHUNK));
    }
    total
}

#[inline(never)]
fn fill_blocks(file: &mut BlockFile, blocks: u64) -> Result<u64, NoMemory>
    requires { blocks ≤ 2 ^ 20 }
{
    let mut fresh = 0u64;
    for k in 0..blocks {
        fresh = fresh.wrapping_add(file.write(k * BLOCK_SIZE, Input::Bytes(b"x"))?);
    }
    Ok(fresh)
}

#[inline(never)]
fn overwrite_byte_of_10(file: &mut BlockFile, times: u64) -> Result<u64, NoMemory> {
    let mut fresh = 0u64;
    for i in 0..times {
        fresh = fresh.wrapping_add(file.write(i % 10 * BLOCK_SIZE + 7, Input::Bytes(b"y"))?);
    }
    Ok(fresh)
}

#[inline(never)]
fn overwrite_byte_of_100000(file: &mut BlockFile, times: u64) -> Result<u64, NoMemory> {
    let mut fresh = 0u64;
    for i in 0..times {
        let k = i.wrapping_mul(7919) % 100_000;
        fresh = fresh.wrapping_add(file.write(k * BLOCK_SIZE + 7, Input::Bytes(b"y"))?);
    }
    Ok(fresh)
}

#[inline(never)]
fn freed_by_truncate_to_nothing(file: &BlockFile) -> u64 {
    file.freed_by(0)
}

#[inline(never)]
fn freed_by_truncate_of_one_block(file: &BlockFile, times: u64) -> u64 {
    let mut freed = 0u64;
    for _ in 0..times {
        freed = freed.wrapping_add(file.freed_by(99_999 * BLOCK_SIZE));
    }
    freed
}

#[inline(never)]
fn freed_by_truncate_of_holes(file: &BlockFile, times: u64) -> u64 {
    let mut freed = 0u64;
    for _ in 0..times {
        freed = freed.wrapping_add(file.freed_by(0));
    }
    freed
}

#[inline(never)]
fn truncate_holes(file: &mut BlockFile) -> u64 {
    file.truncate(BLOCK_SIZE)
}

#[inline(never)]
fn truncate_one_block(file: &mut BlockFile) -> u64 {
    file.truncate(99_999 * BLOCK_SIZE)
}

#[inline(never)]
fn truncate_to_nothing(file: &mut BlockFile) -> u64 {
    file.truncate(0)
}

#[inline(never)]
fn drop_blocks(file: BlockFile) {
    let _dropped = file;
}

fn filled(alloc: Global, byte: u8, len: usize) -> Result<Vec<u8>, NoMemory>
    ensures { IfOk result (λ bytes. length bytes.items ≡ len) }
{
    vec![in alloc; byte; len]
}

fn chunks(rt: &impl Print, alloc: Global) -> io::Result<()> {
    let chunk = filled(alloc, 7, CHUNK as usize)?;
    let mut copy = filled(alloc, 0, CHUNK as usize)?;
    copy_chunk(&mut copy, &chunk, 100);
    copy_chunk_by_blocks(&mut copy, &chunk, 100);
    let mut file = BlockFile::new(alloc);
    let fresh = write_new_chunks(&mut file, &chunk, 100)?;
    let again = overwrite_chunk(&mut file, &chunk, 100)?;
    let across = overwrite_across_rows(&mut file, &chunk, 100)?;
    println!(rt; "64 KiB writes: {fresh} new blocks, then {again} and {across}")?;
    let mut file = BlockFile::new(alloc);
    let fresh = fill_new_chunks(&mut file, 100)?;
    let again = refill_chunk(&mut file, 100)?;
    println!(rt; "64 KiB fills: {fresh} new blocks, then {again}")?;
    let missing = missing_in_chunk(&file, 100);
    let bytes = read_chunk(&file, 100)?;
    println!(rt; "64 KiB reads: {bytes} bytes, {missing} blocks missing")
}

fn bytes(rt: &impl Print, alloc: Global) -> io::Result<()> {
    let mut small = BlockFile::new(alloc);
    let few = fill_blocks(&mut small, 10)?;
    let again = overwrite_byte_of_10(&mut small, 1000)?;
    println!(rt; "{few} blocks: {again} more by 1000 writes of a byte")?;
    let mut wide = BlockFile::new(alloc);
    let many = write_bytes_far_apart(&mut wide, 1000)?;
    println!(rt; "{many} new blocks by 1000 writes of a byte")?;
    let mut large = BlockFile::new(alloc);
    let many = fill_blocks(&mut large, 100_000)?;
    let again = overwrite_byte_of_100000(&mut large, 1000)?;
    println!(rt; "{many} blocks: {again} more by 1000 writes of a byte")?;
    let all = freed_by_truncate_to_nothing(&large);
    let one = freed_by_truncate_of_one_block(&large, 1000);
    println!(rt; "{all} blocks to be freed, or 1 a time by 1000 cuts: {one}")?;
    let last = truncate_one_block(&mut large);
    let freed = truncate_to_nothing(&mut large);
    println!(rt;
        "{last} and {freed} blocks freed, {} left",
        large.allocated()
    )
}

fn holes(rt: &impl Print, alloc: Global) -> io::Result<()> {
    let mut file = BlockFile::new(alloc);
    let few = file.write(LARGEST - 1, Input::Bytes(b"z"))?;
    let freed = freed_by_truncate_of_holes(&file, 1000);
    let gone = truncate_holes(&mut file);
    println!(rt; "{few} block behind holes: {freed} by 1000 cuts, {gone} freed")?;
    let many = fill_blocks(&mut file, 100_000)?;
    drop_blocks(file);
    println!(rt; "{many} blocks dropped")
}

fn ends(rt: &impl Print, alloc: Global) -> io::Result<()> {
    let mut near = BlockFile::new(alloc);
    let front = write_bytes_at_the_front(&mut near, 1000)?;
    let mut far = BlockFile::new(alloc);
    let back = write_bytes_at_the_far_end(&mut far, 1000)?;
    let freed = truncate_far_blocks(&mut far);
    println!(rt; "{front} new blocks at the front, {back} at the far end, {freed} freed")
}

fn main(rt: HostRuntime) -> io::Result<()> {
    chunks(&rt, rt.alloc())?;
    bytes(&rt, rt.alloc())?;
    holes(&rt, rt.alloc())?;
    ends(&rt, rt.alloc())
}
