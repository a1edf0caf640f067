//! The format of a task that prints: bytes that no source can spell.

use crate::claims::{fail, holds_at};
use elaborate::{ElabFault, elaborate};
use model::tree::{Module, SourceProcess, SourceStatement, Task};
use std::alloc::Global;
use std::process::Abort;

/// A module whose one process shows a line of one byte. A source spells it only where the byte is one of ASCII.
fn showing(rt: &impl Abort, alloc: Global, byte: u8) -> Module {
    let format = vec![in alloc; byte].ok().expect(rt, "memory");
    let body = SourceStatement::Print(Task::Display, format, Vec::new(alloc));
    let process = SourceProcess {
        repeats: false,
        body,
    };
    Module {
        name: String::from_str(alloc, "t").expect(rt, "memory"),
        regs: Vec::new(alloc),
        procs: vec![in alloc; process].ok().expect(rt, "memory"),
    }
}

/// Whether a format of this byte alone is refused, as the fault that it is.
fn is_refused(rt: &impl Abort, alloc: Global, byte: u8) -> bool {
    let module = showing(rt, alloc, byte);
    match elaborate(alloc, &module) {
        Ok(_) => false,
        Err(ElabFault::BadFormat) => true,
        Err(ElabFault::Memory) => fail(rt, "memory"),
        Err(_) => fail(rt, "another fault"),
    }
}

#[test]
fn refuses_bytes_that_are_not_ascii(rt: HostRuntime) {
    for byte in [0_u8, 37, 127, 128, 200, 255] {
        let wanted = byte == b'%' || byte >= 128;
        let is = is_refused(&rt, rt.alloc(), byte) == wanted;
        holds_at(&rt, is, "a format of byte", usize::from(byte));
    }
}
