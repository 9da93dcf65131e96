//! What is read of a caller, and what `Display` shows of a fault.

use qtool::{ConfigFault, FromText, Script, TextFault, TextKind};
use std::alloc::{AllocError, Global};
use std::test::Fail;

/// Whether a script of one line is read, whose caller keeps its further groups.
fn is_read(alloc: Global) -> bool {
    let Ok(script) = Script::read(alloc, b"7 1001:0,100,5,100 stat /\n") else {
        return false;
    };
    match script.lines() {
        [line] => {
            line.cred.more() == [100, 5, 100].as_slice()
                && (line.cred.uid(), line.cred.gid(), line.moment) == (1001, 0, 7)
        }
        _ => false,
    }
}

#[test]
fn a_caller_keeps_its_further_groups_in_order(rt: HostRuntime) {
    assert!(rt; is_read(rt.alloc()));
}

/// Whether a kind of fault is shown in its words.
fn is_shown(alloc: Global, kind: TextKind) -> Result<bool, AllocError> {
    let shown = kind.to_string(alloc)?;
    Ok(shown.as_str() == kind.words())
}

/// Whether a fault of a text is shown with its line.
fn is_shown_in_its_line(alloc: Global) -> Result<bool, AllocError> {
    let fault = TextFault {
        line: 3,
        kind: TextKind::BadCred,
    };
    let shown = fault.to_string(alloc)?;
    Ok(shown.as_str() == "line 3: bad caller")
}

#[test]
fn a_fault_of_a_text_is_shown_in_its_words(rt: HostRuntime) -> Result<(), Fail> {
    for kind in [
        TextKind::Cut,
        TextKind::BadByte,
        TextKind::BadNumber,
        TextKind::BadCred,
        TextKind::BadVerb,
        TextKind::WordCount,
        TextKind::BadWord,
        TextKind::BadHex,
        TextKind::TooMany,
        TextKind::Memory,
        TextKind::BadHead,
        TextKind::BadReply,
    ] {
        assert!(rt; is_shown(rt.alloc(), kind)?, "{}", kind.words());
    }
    assert!(rt; is_shown_in_its_line(rt.alloc())?);
    Ok(())
}

/// Whether a fault of a configuration is shown so.
fn is_told(alloc: Global, fault: ConfigFault, words: &str) -> Result<bool, AllocError> {
    let shown = fault.to_string(alloc)?;
    Ok(shown.as_str() == words)
}

#[test]
fn a_fault_of_a_configuration_is_shown_in_its_words(rt: HostRuntime) -> Result<(), Fail> {
    let key = String::from_str(rt.alloc(), "size")?;
    for (fault, words) in [
        (ConfigFault::Text, "text"),
        (ConfigFault::Field(key), "field size"),
        (ConfigFault::Range, "range"),
        (ConfigFault::Duplicate, "duplicate"),
        (ConfigFault::NoZero, "no zero"),
        (ConfigFault::Memory, "memory"),
    ] {
        assert!(rt; is_told(rt.alloc(), fault, words)?, "{words}");
    }
    Ok(())
}
