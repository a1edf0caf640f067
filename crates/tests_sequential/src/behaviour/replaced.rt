//! The source and the journal of a swap, cut at each length, and with each byte replaced by every value.

use super::held::design_of;
use super::journal_text::read;
use super::refused::SWAP_TEXT;
use super::replayed::outcome;
use crate::claims::{holds, holds_at, put_byte};
use crate::language::parsing::fault;
use design::Design;
use elaborate::{ElabFault, elaborate};
use fixtures::{SWAP, SWAP_JOURNAL};
use journal::ReadFault;
use model::entry::Entry;
use model::tree::Module;
use replay::Cause;
use std::alloc::Global;
use std::process::Abort;
use vparse::{ParseFault, parse};

/// How many entries are those of the swap, up to the first that isn't.
fn lawful(entries: &[Entry]) -> usize {
    let mut count = 0usize;
    for (entry, wanted) in entries.iter().zip(SWAP_JOURNAL) {
        if entry != wanted {
            return count;
        }
        count = count.saturating_add(1);
    }
    count
}

/// Entries are replayed up to the first that isn't one of the swap's, since the swap permits one entry alone at each place.
fn assert_replayed(rt: &impl Abort, alloc: Global, design: &Design, entries: &[Entry]) {
    let count = lawful(entries);
    match outcome(rt, alloc, design, entries) {
        Ok(printed) => {
            let is_whole = count == SWAP_JOURNAL.len();
            holds_at(rt, count == entries.len(), "lawful entries", count);
            holds_at(rt, printed.is_over == is_whole, "the end behind", count);
        }
        Err(fault) => {
            let entry = (count as u64).saturating_add(1);
            holds_at(rt, fault.entry == entry, "a fault behind", count);
        }
    }
}

/// The number of the line on which a place of a text stands.
fn line_at(text: &[u8], place: usize) -> u64 {
    let mut line = 1u64;
    for byte in text.iter().take(place) {
        if *byte == b'\n' {
            line = line.saturating_add(1);
        }
    }
    line
}

/// What is read of a text: the entries of as many of its lines as are wanted, or the fault that is wanted. They are replayed.
fn assert_read(
    rt: &impl Abort,
    alloc: Global,
    design: &Design,
    text: &[u8],
    lines: u64,
    wanted: Option<ReadFault>,
) {
    match read(alloc, text) {
        Ok(entries) => {
            let count = entries.len() as u64;
            holds(rt, wanted.is_none(), "no fault");
            holds(rt, count == lines, "another number of entries");
            assert_replayed(rt, alloc, design, &entries);
        }
        Err(fault) => holds(rt, wanted == Some(fault), "another fault"),
    }
}

/// The bytes of a journal's header, and the place of its version.
const HEADER: usize = 17;

const VERSION: usize = 15;

/// The fault of a journal that ends behind so many bytes.
fn fault_of_cut(len: usize) -> Option<ReadFault> {
    if len < HEADER {
        return Some(ReadFault::Header);
    }
    match SWAP_TEXT.get(len - 1) {
        Some(b'\n') => None,
        _ => Some(ReadFault::Cut),
    }
}

#[test]
fn a_cut_journal_is_read_up_to_a_newline(rt: HostRuntime) {
    let design = design_of(&rt, rt.alloc(), SWAP.as_bytes());
    for len in 0..=SWAP_TEXT.len() {
        let lines = line_at(SWAP_TEXT, len).saturating_sub(2);
        let text = SWAP_TEXT.get(..len).expect(&rt, "a beginning");
        assert_read(&rt, rt.alloc(), &design, text, lines, fault_of_cut(len));
    }
}

/// Whether a line of an entry is one still, with another byte in the place of one of its own.
fn is_line(old: u8, new: u8) -> bool {
    match old {
        b'T' | b'U' | b'A' => matches!(new, b'T' | b'U' | b'A'),
        b'N' => matches!(new, b'N' | b'I'),
        b'0'..=b'9' => new.is_ascii_digit(),
        _ => new == old,
    }
}

/// The fault of the journal with a byte replaced.
fn fault_of_journal(place: usize, old: u8, new: u8) -> Option<ReadFault> {
    if new == old {
        return None;
    }
    if place < HEADER {
        let is_second = place == VERSION && new == b'2';
        return Some(if is_second {
            ReadFault::Uncounted
        } else {
            ReadFault::Header
        });
    }
    if place == SWAP_TEXT.len() - 1 {
        return Some(ReadFault::Cut);
    }
    if is_line(old, new) {
        return None;
    }
    Some(ReadFault::Line(line_at(SWAP_TEXT, place)))
}

/// The journal with every value at one place.
fn assert_journals(
    rt: &impl Abort,
    alloc: Global,
    design: &Design,
    text: &mut [u8],
    place: usize,
    old: u8,
) {
    for new in 0..=255u8 {
        put_byte(text, place, new);
        let fault = fault_of_journal(place, old, new);
        assert_read(rt, alloc, design, text, SWAP_JOURNAL.len() as u64, fault);
    }
    put_byte(text, place, old);
}

#[test]
fn a_journal_with_a_byte_replaced_is_replayed_as_far_as_it_is_lawful(rt: HostRuntime) {
    let design = design_of(&rt, rt.alloc(), SWAP.as_bytes());
    let mut text = Vec::from_slice(rt.alloc(), SWAP_TEXT).expect(&rt, "memory");
    for (place, old) in SWAP_TEXT.iter().enumerate() {
        assert_journals(&rt, rt.alloc(), &design, &mut text, place, *old);
    }
}

/// Whether a byte may stand nowhere but in a comment.
fn is_foreign(byte: u8) -> bool {
    match byte {
        b' '..=b'~' | b'\t' | b'\n' | b'\r' => false,
        _ => true,
    }
}

/// Whether a text with such a byte at a place may have this fault. One byte nests nothing too deep, and memory isn't refused.
fn may_refuse(fault: ParseFault, place: usize, new: u8) -> bool {
    match fault {
        ParseFault::Byte(at) => at < SWAP.len() && (at <= place || !is_foreign(new)),
        ParseFault::Literal(at) => at <= place,
        ParseFault::Syntax(token) | ParseFault::Unsized(token) => !is_foreign(new)
            && 1 <= token
            && token <= SWAP.len(),
        ParseFault::Deep(_) | ParseFault::Memory => false,
    }
}

/// Whether one byte of the swap may bring this fault of names or formats about.
fn may_be_faulty(fault: &ElabFault) -> bool {
    match fault {
        ElabFault::Undeclared(_) | ElabFault::DeclaredTwice(_) | ElabFault::BadFormat => true,
        _ => false,
    }
}

/// The swap's journal replays on this design to its end, or one of its entries is refused by the rules.
fn assert_led(rt: &impl Abort, alloc: Global, design: &Design) {
    match outcome(rt, alloc, design, SWAP_JOURNAL) {
        Ok(printed) => holds(rt, printed.is_over, "events are left"),
        Err(fault) => {
            let is_refused = matches!(fault.cause, Cause::Refused(_));
            holds(rt, is_refused, "another cause");
            holds(
                rt,
                fault.entry <= SWAP_JOURNAL.len() as u64,
                "another entry",
            );
        }
    }
}

/// A module of one declaration and one process has a design, or one of the faults that a byte may bring about.
fn assert_elaborated(rt: &impl Abort, alloc: Global, module: &Module) {
    holds(
        rt,
        module.regs.len() == 1 && module.procs.len() == 1,
        "another module",
    );
    match elaborate(alloc, module) {
        Ok(design) => assert_led(rt, alloc, &design),
        Err(fault) => holds(rt, may_be_faulty(&fault), "another fault of a module"),
    }
}

/// What becomes of the source with a byte replaced.
fn assert_source(rt: &impl Abort, alloc: Global, text: &[u8], place: usize, new: u8) {
    match parse(alloc, text) {
        Ok(module) => {
            holds_at(rt, !is_foreign(new), "a foreign byte at", place);
            assert_elaborated(rt, alloc, &module);
        }
        Err(fault) => holds_at(rt, may_refuse(fault, place, new), "another fault at", place),
    }
}

/// The source with every value at one place.
fn assert_sources(rt: &impl Abort, alloc: Global, text: &mut [u8], place: usize, old: u8) {
    for new in 0..=255u8 {
        put_byte(text, place, new);
        assert_source(rt, alloc, text, place, new);
    }
    put_byte(text, place, old);
}

#[test]
fn a_source_with_a_byte_replaced_has_a_design_or_a_fault(rt: HostRuntime) {
    let mut text = Vec::from_slice(rt.alloc(), SWAP.as_bytes()).expect(&rt, "memory");
    for (place, old) in SWAP.as_bytes().iter().enumerate() {
        assert_sources(&rt, rt.alloc(), &mut text, place, *old);
    }
}

#[test]
fn a_cut_source_is_no_module(rt: HostRuntime) {
    for len in 0..SWAP.len() {
        let text = SWAP.as_bytes().get(..len).expect(&rt, "a beginning");
        let fault = fault(rt.alloc(), text).expect(&rt, "a fault");
        holds_at(&rt, may_refuse(fault, len, b' '), "cut at", len);
    }
}
