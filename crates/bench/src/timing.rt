//! How long work took, and how that is told.

use std::io;
use std::time::Instant;

/// How long some work took, and how much of it there was.
#[derive(Clone, Copy)]
pub struct Measure {
    nanos: u64,
    amount: u64,
}

/// A clock that runs.
#[derive(Clone, Copy)]
pub struct Stopwatch {
    from: Option<Instant>,
}

impl Stopwatch {
    /// Starts it.
    pub fn start(rt: &HostRuntime) -> Stopwatch {
        Stopwatch {
            from: Instant::now(rt).ok(),
        }
    }

    /// This much work since it was started. Where the clock can't be read, no measure is slower.
    pub fn stop(self, rt: &HostRuntime, amount: u64) -> Measure {
        let nanos = match self.from {
            Some(from) => match from.elapsed(rt) {
                Ok(time) => time.as_nanos().min(u128::from(u64::MAX)) as u64,
                Err(_) => u64::MAX,
            },
            None => u64::MAX,
        };
        Measure { nanos, amount }
    }
}

/// In which unit a measure is told.
#[derive(Clone, Copy)]
pub enum Unit {
    NanosEach,
    MillionASecond,
}

/// How work is measured: timed, with as much work as was asked for, or once on a little of it and not timed.
#[derive(Clone, Copy)]
pub struct How {
    pub is_timed: bool,
    pub size: Option<u32>,
}

impl How {
    /// How much work there is to be: what was asked for, or else what is usual.
    pub fn size(self, usual: u32, little: u32) -> u32 {
        if self.is_timed {
            self.size.unwrap_or(usual)
        } else {
            little
        }
    }

    /// How many processes a source is to have.
    pub fn processes(self) -> u32 {
        if self.is_timed { 256 } else { 4 }
    }

    /// What is kept of two measures of such work: the faster, whatever their amounts, or both together where it isn't timed.
    pub fn kept(self, one: Measure, other: Measure) -> Measure {
        if !self.is_timed {
            one.and(other)
        } else if one.amount == 0 || (other.amount > 0 && other.each() < one.each()) {
            other
        } else {
            one
        }
    }

    /// How often the work is done.
    pub fn runs(self) -> u32 {
        if self.is_timed { 20 } else { 1 }
    }
}

impl Measure {
    /// Slower than all others.
    pub const SLOWEST: Measure = Measure {
        nanos: u64::MAX,
        amount: 0,
    };

    /// No work.
    pub const NONE: Measure = Measure {
        nanos: 0,
        amount: 0,
    };

    /// The faster of two measures of the same work.
    pub fn least(self, other: Measure) -> Measure {
        if other.nanos < self.nanos {
            other
        } else {
            self
        }
    }

    /// Both, one after the other.
    pub fn and(self, other: Measure) -> Measure {
        Measure {
            nanos: self.nanos.saturating_add(other.nanos),
            amount: self.amount.saturating_add(other.amount),
        }
    }

    /// The picoseconds of each.
    fn each(self) -> u128 {
        u128::from(self.nanos) * 1000 / u128::from(self.amount).max(1)
    }
}

/// Prints a measure, or alone how much work there was where it isn't timed.
pub fn tell(
    rt: &HostRuntime,
    how: How,
    name: &str,
    unit: Unit,
    measure: Measure,
) -> io::Result<()> {
    if !how.is_timed {
        println!(rt; "  {name}: {}", measure.amount)?;
        return Ok(());
    }
    let nanos = u128::from(measure.nanos);
    let amount = u128::from(measure.amount);
    let (thousandths, unit) = match unit {
        Unit::NanosEach => (measure.each(), "ns each"),
        Unit::MillionASecond => (amount * 1_000_000 / nanos.max(1), "million a second"),
    };
    println!(rt;
        "  {name}: {}.{:03} {unit}",
        thousandths / 1000,
        thousandths % 1000
    )?;
    Ok(())
}

/// An error where work didn't come out as it has to.
pub fn must(is_right: bool) -> io::Result<()> {
    if is_right {
        Ok(())
    } else {
        Err(io::Error::from(io::ErrorKind::InvalidData))
    }
}
