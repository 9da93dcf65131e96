//! Clients served by workers, beside a monitor.
use crate::given::{FIRST_FILES, OTHER_FILES, script, setup};
use qplain::{Board, Edition};
use qrun::{Beginning, Machine, Monitor, serve};
use qrun_worker::ScriptClient;
use std::hint::spin_loop;
use std::sync::atomic::AtomicU64;
use std::sync::atomic::Ordering::SeqCst;
use std::test::Fail;

/// A monitor that counts the boards that it is shown, and keeps the version of the last.
#[derive(Drop)]
struct Counts<'a> {
    boards: &'a AtomicU64,
    version: &'a AtomicU64,
}

impl<'a> Monitor for Counts<'a> {
    ghost use Rattle.std.specs.Prelude.{⊤};

    type Left = ();

    ghost sees = { λ _ _ _. ⊤ };

    fn wait(&mut self) {
        spin_loop();
    }

    fn give_way(&mut self) {
        spin_loop();
    }

    fn miss(&mut self) {
        self.boards.store(0, SeqCst);
    }

    fn show(&mut self, board: &Board) {
        self.boards.fetch_add(1, SeqCst);
        self.version.store(board.version, SeqCst);
    }

    fn end(self) {}
}

#[test]
fn the_last_board_of_a_service_is_shown(rt: HostRuntime) -> Result<(), Fail> {
    let alloc = rt.alloc();
    let setup = setup(alloc)?.edition(Edition::Two);
    let one = ScriptClient::new(alloc, script(alloc, FIRST_FILES)?)?;
    let other = ScriptClient::new(alloc, script(alloc, OTHER_FILES)?)?;
    let clients = vec![in alloc; one, other]?;
    let (boards, version) = (AtomicU64::new(0), AtomicU64::new(0));
    let monitor = Counts {
        boards: &boards,
        version: &version,
    };
    let machine = Machine {
        rt: &rt,
        alloc,
        seed: 0,
    };
    let beginning = Beginning::new(alloc, setup, 0, false)?;
    let Ok(service) = serve(&machine, beginning, clients, false, Some(monitor)) else {
        return Err(Fail::from("an outcome"));
    };
    let entries = service.outcome.journal.get().entries().len();
    let lines = service.outcome.transcripts.as_slice()[0].len();
    assert_eq!(rt; (entries, lines, service.left.len()), (6, 3, 2));
    assert_eq!(rt; version.load(SeqCst), 6);
    assert!(rt; boards.load(SeqCst) > 0);
    Ok(())
}
