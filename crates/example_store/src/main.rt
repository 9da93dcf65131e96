//! One caller of each crate that a program of one's own begins with, and what comes of it: a quota record, a file, a
//! store, an audit, and a store that seats share. Their `CALLING.md` show these callers.
#![tactic(auto)]

ghost use Rattle.std.specs.Prelude.{◌≡◌};

use qblocks::BlockFile;
use qplain::Reply;
use qrules::{Over, Record};
use qshare::Opened;
use qshare_history::StoreId;
use qstore::Store;
use std::alloc::Global;
use std::io;
use std::marker::Brand;
use std::sync::Wait;

mod audits;
mod files;
mod given;
mod records;
mod seats;
mod stores;

/// Charges a builder for more blocks than it may have.
fn show_record(rt: &impl Print) -> io::Result<()> {
    let mut record = Record::new(given::FEW);
    match records::charge(&mut record, given::GRACES, 0, 3, 0) {
        Ok(()) => println!(rt; "record: granted"),
        Err(Over::BlockHard) => println!(rt;
            "record: refused, and {} blocks as before",
            record.blocks()
        ),
        Err(_) => println!(rt; "record: refused"),
    }
}

/// Writes three bytes into a new file.
fn show_file(rt: &impl Print, alloc: Global) -> io::Result<()> {
    let mut file = BlockFile::new(alloc);
    let blocks = files::append(&mut file, b"ok\n")?;
    println!(rt; "file: {} bytes in {blocks} blocks", file.size())
}

/// Makes two files, of which the builder may have one beside its other inode.
fn show_store(rt: &impl Print, alloc: Global) -> io::Result<Store> {
    let builder = given::builder(alloc)?;
    let mut store = Store::new(alloc, given::setup(alloc)?, 7)?;
    for text in ["/a", "/b", "/c"] {
        match stores::create(&mut store, &builder, 0, &given::path(alloc, text)?)? {
            Reply::Done(ino, _) => println!(rt; "store: {text} is inode {ino}")?,
            Reply::Refused(refusal) => println!(rt;
                "store: {text} is refused, {}",
                refusal.number()
            )?,
            _ => {}
        }
    }
    Ok(store)
}

/// Recounts a store's rows.
fn show_audit(rt: &impl Print, alloc: Global, store: &Store) -> io::Result<()> {
    let inodes = store.inode_rows()?;
    let names = store.name_rows()?;
    let records = store.record_rows()?;
    if inodes.len() > 8 {
        return Ok(());
    }
    let found = audits::check(alloc, &inodes, &names, &records)?;
    println!(rt;
        "audit: {} inodes, {} differences",
        inodes.len(),
        found.len()
    )
}

/// Makes a file from each of two seats, and ends the store.
fn show_seats<S: StoreId, W: Wait + Print>(rt: &W, alloc: Global, opened: Opened) -> io::Result<()>
    requires { opened ≡ S.id }
{
    let builder = given::builder(alloc)?;
    let Ok((shared, seats)) = opened.without_viewers::<S>() else {
        return Err(io::Error::from(io::ErrorKind::OutOfMemory));
    };
    let mut shares = Vec::new(alloc);
    for mut seat in seats {
        let path = given::path(alloc, "/a")?;
        if let Ok(receipt) = seats::create(rt, &shared, &mut seat, &builder, path) {
            println!(rt; "seat: its call is at place {}", receipt.place)?;
        }
        shares.push(seat.finish())?;
    }
    match shared.end(rt, shares) {
        Ok(ended) => println!(rt; "end: {} calls", ended.into_parts().tallies.calls),
        Err(_) => println!(rt; "end: a share is missing"),
    }
}

fn main(rt: HostRuntime) -> io::Result<()> {
    let alloc = rt.alloc();
    show_record(&rt)?;
    show_file(&rt, alloc)?;
    let store = show_store(&rt, alloc)?;
    show_audit(&rt, alloc, &store)?;
    match Opened::new(alloc, given::setup(alloc)?, 2, 7) {
        Ok(opened) => show_seats::<Brand, _>(&rt, alloc, opened),
        Err(_) => Err(io::Error::from(io::ErrorKind::OutOfMemory)),
    }
}
