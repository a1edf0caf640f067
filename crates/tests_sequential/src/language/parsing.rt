//! A page of source that is read, cut, and with each of its bytes replaced, and the deepest statement. Other sources that are accepted or
//! refused are rows of `shown`.

use crate::claims::{holds, holds_at, put_byte, repeated};
use model::tree::Module;
use std::alloc::Global;
use std::process::Abort;
use vparse::{ParseFault, parse};

/// A source with each form of the grammar.
const PAGE: &[u8] =
    b"module t; // a\nreg [7:0] a, b$1; /* ** */ reg _c;\ninitial begin a = 8'hz1 & &b$1; _c <= #1 {a[0], 1'bx} <= !a; #5 @(posedge a or b$1, negedge _c) ; if (a === 4'd9) begin end else begin $display(\"%b\\n\\\"\", a, ~_c); $strobe(\"\"); end while (a < b$1) begin a = a ? b$1 : (a - 8'd1) << 2'd1; end if (a) begin end $finish; end\nalways ; endmodule\n";

/// The fault of a text, or nothing where it is accepted.
pub fn fault(alloc: Global, text: &[u8]) -> Option<ParseFault> {
    parse(alloc, text).err()
}

/// The name and the counts of the page's module.
fn assert_page(rt: &impl Abort, page: &Module) {
    holds(rt, page.name.as_str() == "t", "another name");
    holds(rt, page.regs.len() == 2, "other declarations");
    holds(rt, page.procs.len() == 2, "other processes");
}

#[test]
fn reads_each_form(rt: HostRuntime) {
    let page = parse(rt.alloc(), PAGE).expect(&rt, "the page is a module");
    assert_page(&rt, &page);
}

/// The start of a module with 64 blocks, each inside the one before it and behind 64 delays.
fn opened_blocks(rt: &impl Abort, alloc: Global) -> Vec<u8> {
    let level = repeated(rt, alloc, b"", b"#1 ", 64, b"begin ");
    repeated(rt, alloc, b"module t; initial ", &level, 64, b"")
}

/// The same, and in the last block 64 delays of an empty statement.
fn delayed_blocks(rt: &impl Abort, alloc: Global) -> Vec<u8> {
    repeated(rt, alloc, &opened_blocks(rt, alloc), b"#1 ", 64, b"; ")
}

/// The whole module.
fn deepest_module(rt: &impl Abort, alloc: Global) -> Vec<u8> {
    repeated(
        rt,
        alloc,
        &delayed_blocks(rt, alloc),
        b"end ",
        64,
        b"endmodule",
    )
}

/// The deepest tree that the counts allow is read and dropped within the stack.
#[test]
fn reads_the_deepest_statement(rt: HostRuntime) {
    let text = deepest_module(&rt, rt.alloc());
    holds(&rt, fault(rt.alloc(), &text).is_none(), "no fault");
}

/// Whether a fault names a byte of the text, or a token that so long a text may have.
fn is_named(fault: Option<ParseFault>, len: usize) -> bool {
    match fault {
        None => true,
        Some(ParseFault::Byte(place)) | Some(ParseFault::Literal(place)) => place < len,
        Some(ParseFault::Syntax(n)) | Some(ParseFault::Unsized(n)) | Some(ParseFault::Deep(n)) => n
            >= 1
            && n - 1 <= len,
        Some(ParseFault::Memory) => false,
    }
}

#[test]
fn reads_or_refuses_each_cut_of_a_page(rt: HostRuntime) {
    for len in 0..PAGE.len() {
        let found = fault(rt.alloc(), &PAGE[..len]);
        holds_at(&rt, is_named(found, len), "cut at", len);
    }
}

/// A text with each byte in turn at one place.
fn assert_each_byte(rt: &impl Abort, alloc: Global, text: &mut [u8], place: usize) {
    for byte in 0..=255u8 {
        put_byte(text, place, byte);
        let found = fault(alloc, text);
        holds_at(rt, is_named(found, text.len()), "another byte at", place);
    }
}

#[test]
fn reads_or_refuses_a_page_with_a_byte_replaced(rt: HostRuntime) {
    let mut text = Vec::from_slice(rt.alloc(), PAGE).expect(&rt, "memory");
    for place in 0..PAGE.len() {
        assert_each_byte(&rt, rt.alloc(), &mut text, place);
        put_byte(&mut text, place, PAGE[place]);
    }
}
