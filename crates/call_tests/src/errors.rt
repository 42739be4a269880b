//! That an error shows its text whole to a writer that takes it: faults of files, of sinks, of names,
//! of words and of raises. Clauses say which text it is, and not that no showing fails.
use clear_core::Illegal;
use clear_words::WordsFault;
use clr_edge::{FetchFault, SinkFault};
use clr_net::{Mem, NameFault};
use net_check::{Fault, FaultKind, FileKind, ReadNet};
use std::alloc::Global;
use std::fmt::Display;
use std::test::Fail;

// Whether an error shows this text.
fn shows<E: Display>(alloc: Global, error: &E, wanted: &str) -> bool {
    match format!(in alloc; "{error}") {
        Ok(text) => *text.as_bytes() == *wanted.as_bytes(),
        Err(_) => false,
    }
}

#[test]
fn errors_show_their_texts(rt: HostRuntime) -> Result<(), Fail> {
    let fault = Fault {
        file: FileKind::Debts,
        row: 7,
        kind: FaultKind::UnknownBank,
    };
    let illegal = Illegal { had: 3, allowed: 5 };
    let alloc = rt.alloc();
    assert!(rt; shows(alloc, &fault.kind, "unknown bank (8)"));
    assert!(rt; shows(alloc, &fault, "debts row 7: unknown bank (8)"));
    assert!(rt;
        shows(
            alloc,
            &ReadNet::Refused(fault),
            "debts row 7: unknown bank (8)"
        )
    );
    assert!(rt; shows(alloc, &ReadNet::Mem, "out of memory"));
    assert!(rt; shows(alloc, &illegal, "of 5 allowed, 3 were paid already"));
    assert!(rt; shows(alloc, &NameFault::Bad, "not a name"));
    assert!(rt;
        shows(
            alloc,
            &WordsFault::Usage,
            "the command line is not understood"
        )
    );
    assert!(rt; shows(alloc, &Mem, "out of memory"));
    Ok(())
}

const KINDS: [(FaultKind, &str); 17] = [
    (FaultKind::Header, "header (1)"),
    (FaultKind::Fields, "fields (2)"),
    (FaultKind::Name, "name (3)"),
    (FaultKind::Number, "number (4)"),
    (FaultKind::Rule, "rule (5)"),
    (FaultKind::Limit, "limit (6)"),
    (FaultKind::DoubleBank, "double bank (7)"),
    (FaultKind::UnknownBank, "unknown bank (8)"),
    (FaultKind::SelfDebt, "self debt (9)"),
    (FaultKind::Class, "class (10)"),
    (FaultKind::DoubleDebt, "double debt (11)"),
    (FaultKind::TooMany, "too many (12)"),
    (FaultKind::Total, "total (13)"),
    (FaultKind::FileSize, "file size (14)"),
    (FaultKind::UnknownDebt, "unknown debt (15)"),
    (FaultKind::Toml, "toml (16)"),
    (FaultKind::Shape, "shape (17)"),
];

// The first kind of fault that shows another text.
fn first_unshown(alloc: Global) -> Option<FaultKind> {
    for (kind, wanted) in &KINDS {
        if !shows(alloc, kind, wanted) {
            return Some(*kind);
        }
    }
    None
}

#[test]
fn errors_of_all_kinds_show_their_texts(rt: HostRuntime) -> Result<(), Fail> {
    let alloc = rt.alloc();
    assert_eq!(rt; first_unshown(alloc), None);
    assert!(rt; shows(alloc, &FetchFault::Failed, "cannot read the file"));
    assert!(rt; shows(alloc, &FetchFault::Mem, "out of memory"));
    assert!(rt; shows(alloc, &SinkFault, "cannot write the output"));
    assert!(rt; shows(alloc, &NameFault::Mem, "out of memory"));
    Ok(())
}
