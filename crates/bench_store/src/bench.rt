//! A store, the caller, and the calls of each kind.
use crate::setting::{caller, setting, superuser};
use qplain::{Call, Cred, NoMemory, Reply};
use qstore::Store;
use std::alloc::Global;
use std::io;

/// When all calls are made: the graces run.
const MOMENT: u64 = 1000;

/// Where the hashes of names begin: the same at each run, so that runs take as many instructions.
const SEED: u64 = 7;

/// What calls came to.
#[derive(Clone, Copy)]
pub(crate) struct Tally {
    /// Of what kind they were.
    pub(crate) kind: &'static str,
    /// How many were not refused.
    pub(crate) granted: u64,
    /// How many blocks they were charged for, or released.
    pub(crate) blocks: u64,
}

impl Tally {
    fn add(&mut self, reply: &Reply) {
        let blocks = match reply {
            Reply::Refused(_) => return,
            Reply::Done(_, change) => change.blocks_charged.wrapping_add(change.blocks_released),
            _ => 0,
        };
        self.granted = self.granted.wrapping_add(1);
        self.blocks = self.blocks.wrapping_add(blocks);
    }
}

/// N calls of one caller.
#[inline(never)]
fn apply_each(
    store: &mut Store,
    cred: &Cred,
    kind: &'static str,
    calls: &[Call],
) -> Result<Tally, NoMemory> {
    let mut tally = Tally {
        kind,
        granted: 0,
        blocks: 0,
    };
    for call in calls {
        tally.add(&store.apply(cred, MOMENT, call)?);
    }
    Ok(tally)
}

/// A store and who calls.
#[derive(Drop)]
pub(crate) struct Bench {
    store: Store,
    cred: Cred,
    root: Cred,
}

impl Bench {
    pub(crate) fn new(alloc: Global) -> io::Result<Bench> {
        Ok(Bench {
            store: Store::new(alloc, setting(alloc)?, SEED)?,
            cred: caller(alloc)?,
            root: superuser(alloc)?,
        })
    }

    pub(crate) fn inodes(&self) -> u64 {
        self.store.inodes()
    }

    pub(crate) fn blocks(&self) -> u64 {
        self.store.blocks()
    }

    /// Calls of the user.
    pub(crate) fn apply_all(
        &mut self,
        kind: &'static str,
        calls: &[Call],
    ) -> Result<Tally, NoMemory> {
        apply_each(&mut self.store, &self.cred, kind, calls)
    }

    fn apply_as_root(&mut self, kind: &'static str, calls: &[Call]) -> Result<Tally, NoMemory> {
        apply_each(&mut self.store, &self.root, kind, calls)
    }

    // The kinds also keep the compiler from making one function of those below, which are counted apart.

    #[inline(never)]
    pub(crate) fn create_first(&mut self, calls: &[Call]) -> Result<Tally, NoMemory> {
        self.apply_all("first creates", calls)
    }

    #[inline(never)]
    pub(crate) fn create_last(&mut self, calls: &[Call]) -> Result<Tally, NoMemory> {
        self.apply_all("last creates", calls)
    }

    #[inline(never)]
    pub(crate) fn stat(&mut self, calls: &[Call]) -> Result<Tally, NoMemory> {
        self.apply_all("stats", calls)
    }

    #[inline(never)]
    pub(crate) fn write_first(&mut self, calls: &[Call]) -> Result<Tally, NoMemory> {
        self.apply_all("first writes of 4 KiB", calls)
    }

    #[inline(never)]
    pub(crate) fn write_block(&mut self, calls: &[Call]) -> Result<Tally, NoMemory> {
        self.apply_all("writes of 4 KiB", calls)
    }

    #[inline(never)]
    pub(crate) fn write_byte(&mut self, calls: &[Call]) -> Result<Tally, NoMemory> {
        self.apply_all("writes of a byte", calls)
    }

    /// Reads of the paths of writes, of as many bytes as the buffer has.
    #[inline(never)]
    pub(crate) fn read_block(&mut self, calls: &[Call], buffer: &mut [u8]) -> Tally {
        let mut tally = Tally {
            kind: "reads of 4 KiB",
            granted: 0,
            blocks: 0,
        };
        for call in calls {
            let Call::Write { path, .. } = call else {
                continue;
            };
            let read = self
                .store
                .read_into(&self.cred, MOMENT, path.text(), 0, buffer);
            tally.granted = tally.granted.wrapping_add(u64::from(read.is_ok()));
        }
        tally
    }

    #[inline(never)]
    pub(crate) fn truncate_block(&mut self, calls: &[Call]) -> Result<Tally, NoMemory> {
        self.apply_all("truncates of a block", calls)
    }

    #[inline(never)]
    pub(crate) fn truncate_16(&mut self, calls: &[Call]) -> Result<Tally, NoMemory> {
        self.apply_all("truncates of 16 blocks", calls)
    }

    #[inline(never)]
    pub(crate) fn truncate_1000(&mut self, calls: &[Call]) -> Result<Tally, NoMemory> {
        self.apply_all("truncates of 1000 blocks", calls)
    }

    #[inline(never)]
    pub(crate) fn truncate_last(&mut self, calls: &[Call]) -> Result<Tally, NoMemory> {
        self.apply_all("truncates of a long file by a block", calls)
    }

    #[inline(never)]
    pub(crate) fn truncate_up(&mut self, calls: &[Call]) -> Result<Tally, NoMemory> {
        self.apply_all("truncates up", calls)
    }

    #[inline(never)]
    pub(crate) fn truncate_far(&mut self, calls: &[Call]) -> Result<Tally, NoMemory> {
        self.apply_all("truncates of a block at the file limit", calls)
    }

    #[inline(never)]
    pub(crate) fn chown_empty(&mut self, calls: &[Call]) -> Result<Tally, NoMemory> {
        self.apply_as_root("chowns of empty files", calls)
    }

    #[inline(never)]
    pub(crate) fn chown_1000(&mut self, calls: &[Call]) -> Result<Tally, NoMemory> {
        self.apply_as_root("chowns of 1000 blocks", calls)
    }

    #[inline(never)]
    pub(crate) fn regroup_empty(&mut self, calls: &[Call]) -> Result<Tally, NoMemory> {
        self.apply_all("chowns of empty files by their owner", calls)
    }

    #[inline(never)]
    pub(crate) fn regroup_1000(&mut self, calls: &[Call]) -> Result<Tally, NoMemory> {
        self.apply_all("chowns of 1000 blocks by their owner", calls)
    }

    #[inline(never)]
    pub(crate) fn unlink_empty(&mut self, calls: &[Call]) -> Result<Tally, NoMemory> {
        self.apply_all("unlinks of empty files", calls)
    }

    #[inline(never)]
    pub(crate) fn unlink_1000(&mut self, calls: &[Call]) -> Result<Tally, NoMemory> {
        self.apply_all("unlinks of 1000 blocks", calls)
    }

    #[inline(never)]
    pub(crate) fn link(&mut self, calls: &[Call]) -> Result<Tally, NoMemory> {
        self.apply_all("links", calls)
    }

    #[inline(never)]
    pub(crate) fn unlink_further(&mut self, calls: &[Call]) -> Result<Tally, NoMemory> {
        self.apply_all("unlinks of further names", calls)
    }

    #[inline(never)]
    pub(crate) fn rename_free(&mut self, calls: &[Call]) -> Result<Tally, NoMemory> {
        self.apply_all("renames onto nothing", calls)
    }

    #[inline(never)]
    pub(crate) fn rename_over(&mut self, calls: &[Call]) -> Result<Tally, NoMemory> {
        self.apply_all("renames over empty files", calls)
    }

    #[inline(never)]
    pub(crate) fn mkdir(&mut self, calls: &[Call]) -> Result<Tally, NoMemory> {
        self.apply_all("mkdirs", calls)
    }

    #[inline(never)]
    pub(crate) fn rmdir(&mut self, calls: &[Call]) -> Result<Tally, NoMemory> {
        self.apply_all("rmdirs", calls)
    }

    #[inline(never)]
    pub(crate) fn move_empty(&mut self, calls: &[Call]) -> Result<Tally, NoMemory> {
        self.apply_all("renames of an empty directory into another", calls)
    }

    #[inline(never)]
    pub(crate) fn move_full(&mut self, calls: &[Call]) -> Result<Tally, NoMemory> {
        self.apply_all("renames of a directory of 1000 files into another", calls)
    }

    #[inline(never)]
    pub(crate) fn stat_near(&mut self, calls: &[Call]) -> Result<Tally, NoMemory> {
        self.apply_all("stats of paths of a component", calls)
    }

    #[inline(never)]
    pub(crate) fn stat_deep(&mut self, calls: &[Call]) -> Result<Tally, NoMemory> {
        self.apply_all("stats of paths of 30 components", calls)
    }
}
