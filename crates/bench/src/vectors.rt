//! Operations of vectors, in nanoseconds each.
//!
//! Each turn of a loop also adds, which makes the next operand, and joins the result, resized, to those before by an
//! exclusive or, so that no call can be left out. The row `no operation` is the time of these.
ghost use Rattle.std.specs.Prelude.{◌≡◌, ◌≤◌, length};

use crate::timing::{How, Measure, Stopwatch, Unit, tell};
use logic4::Bits;
use logic4::bits::Word;
use std::io;

/// The operands of a loop: each turn adds `step` to `start`.
#[derive(Clone, Copy)]
struct Operands {
    start: Bits,
    step: Bits,
    other: Bits,
    ghost step_width: { length start ≡ length step },
    ghost other_width: { length start ≡ length other },
    ghost narrow: { length start ≤ 32 },
}

// What comes of one call more, joined to what came of those before.
#[inline(always)]
fn joined<O: Fn(Bits, Bits) -> Bits>(operation: &O, operand: Bits, other: Bits, found: Bits) -> Bits
    requires call { O.pre operation.now operand other }
    requires found { length found ≡ 64 }
    ensures { length result ≡ 64 }
{
    found.xor(operation(operand, other).resize(64))
}

// So many calls. Answers what comes of them all. Where it is called isn't seen in it, so that no loop is compiled for the digits
// or for one width.
#[inline(never)]
fn calls<O: Fn(Bits, Bits) -> Bits>(count: u32, operands: &Operands, operation: &O) -> Word
    requires { (a b : _) → length a ≡ length b → length a ≤ 32 → O.pre operation.now a b }
{
    let Operands { start, step, other } = *operands;
    let mut operand = start;
    let mut found = Bits::from_u64(64, 0);
    for _turn in 0..count {
        operand = operand.add(step);
        found = joined(operation, operand, other, found);
    }
    found.words().0
}

fn row<O: Fn(Bits, Bits) -> Bits>(
    rt: &HostRuntime,
    how: How,
    name: &str,
    operation: O,
) -> io::Result<()>
    requires { (a b : _) → length a ≡ length b → length a ≤ 32 → O.pre operation a b }
{
    let count = how.size(10_000_000, 5);
    let width = if how.is_timed { 31 } else { 32 };
    let mut least = Measure::SLOWEST;
    let mut found = 0;
    for start in 1..=how.runs() {
        let operands = Operands {
            start: Bits::from_u64(width, u64::from(start)),
            step: Bits::from_u64(width, 3),
            other: Bits::from_u64(width, 13),
        };
        let clock = Stopwatch::start(rt);
        found ^= calls(count, &operands, &operation);
        least = least.least(clock.stop(rt, u64::from(count)));
    }
    println!(rt; "  {name} gives {found}")?;
    tell(rt, how, name, Unit::NanosEach, least)
}

/// Measures 10,000,000 calls of each operation.
pub fn measure(rt: &HostRuntime, how: How) -> io::Result<()> {
    row(rt, how, "no operation", |operand, _other| operand)?;
    row(rt, how, "and", |operand, other| operand.and(other))?;
    row(rt, how, "add", |operand, other| operand.add(other))?;
    row(rt, how, "eq", |operand, other| operand.eq(other))?;
    row(rt, how, "case_eq", |operand, other| operand.case_eq(other))?;
    row(rt, how, "shl", |operand, other| operand.shl(other))?;
    row(
        rt,
        how,
        "concat",
        |operand, other| Bits::concat(operand, other),
    )
}
