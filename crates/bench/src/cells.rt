//! Cells of registers: reads and stores.
ghost use Rattle.std.specs.Prelude.{◌≡◌, length};

use crate::timing::{How, Measure, Stopwatch, Unit, must, tell};
use logic4::Bits;
use regcells::{Holder, RegCells, RegSeat};
use std::io;
use std::sync::Wait;

/// The number of registers that are read and stored in turn.
const REGISTERS: usize = 16;

/// The digits of each of them.
const DIGITS: u32 = 128;

// So many reads, of the registers in turn. Answers what comes of them all.
fn reads<R: Wait>(threads: &R, cells: &RegCells, mut seat: RegSeat, times: u32) -> u64
    requires cells { seat.cells ≡ cells.now }
    requires some { length cells.now ≡ 16 }
{
    let mut all = 0;
    for i in 0..times {
        all ^= cells.read(threads, &mut seat, i % 16).version;
    }
    all
}

// So many stores of values that differ from the last, each after a look at the version.
fn stores<R: Wait>(threads: &R, cells: &RegCells, mut holder: Holder, times: u32) -> u64
    requires cells { holder.cells ≡ cells.now }
    requires some { length cells.now ≡ 16 }
{
    let mut all = 0;
    for i in 0..times {
        let register = i % 16;
        let held = cells.get_held(threads, &mut holder, register);
        if held.version == u64::MAX {
            return all;
        }
        let value = Bits::from_u64(held.value.width(), held.version);
        cells.store(threads, &mut holder, register, value);
        all ^= held.version;
    }
    all
}

fn read_row<R: Wait>(rt: &HostRuntime, threads: &R, times: u32) -> io::Result<(Measure, u64)> {
    let (cells, holder, mut seats) = RegCells::of_widths(
        threads,
        rt.alloc(),
        &[DIGITS; REGISTERS],
        1,
    )?;
    let Some(seat) = seats.pop() else {
        return Err(io::Error::from(io::ErrorKind::InvalidData));
    };
    if holder.registers() != REGISTERS {
        return Err(io::Error::from(io::ErrorKind::InvalidData));
    }
    let clock = Stopwatch::start(rt);
    let all = reads(threads, &cells, seat, times);
    Ok((clock.stop(rt, u64::from(times)), all))
}

fn store_row<R: Wait>(rt: &HostRuntime, threads: &R, times: u32) -> io::Result<(Measure, u64)> {
    let (cells, holder, _) = RegCells::of_widths(threads, rt.alloc(), &[DIGITS; REGISTERS], 1)?;
    if holder.registers() != REGISTERS {
        return Err(io::Error::from(io::ErrorKind::InvalidData));
    }
    let clock = Stopwatch::start(rt);
    let all = stores(threads, &cells, holder, times);
    Ok((clock.stop(rt, u64::from(times)), all))
}

/// Measures reads and stores of 16 registers in turn, by one thread.
pub fn measure<R: Wait>(rt: &HostRuntime, threads: &R, how: How) -> io::Result<()> {
    let times = how.size(4_000_000, 100);
    let mut read = Measure::SLOWEST;
    let mut stored = Measure::SLOWEST;
    for _run in 0..how.runs() {
        let (measure, all) = read_row(rt, threads, times)?;
        must(all == 0)?;
        read = read.least(measure);
        let (measure, all) = store_row(rt, threads, times)?;
        must(all == 0)?;
        stored = stored.least(measure);
    }
    tell(rt, how, "reads", Unit::NanosEach, read)?;
    tell(
        rt,
        how,
        "looks and stores of another value",
        Unit::NanosEach,
        stored,
    )
}
