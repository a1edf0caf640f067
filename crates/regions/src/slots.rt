//! Slots of processes: where there are at most 256 processes each has its own, and else a slot stands for some that follow one another.
ghost use Rattle.std.specs.Prelude.{◌≡◌, ◌<◌, ◌≤◌};
ghost use Rattle.regions.specs.Slots.{slot_size, slot_of};

/// How many processes a slot stands for, where there are this many: as few, among the powers of 2, as leave at most 256 slots.
#[inline(always)]
pub fn slot_size(processes: usize) -> u32
    ensures value { result ≡ slot_size processes }
    ensures some { 1 ≤ result }
    ensures few { result ≤ 64 }
{
    if processes <= 256 {
        return 1;
    }
    if processes <= 512 {
        return 2;
    }
    if processes <= 1024 {
        return 4;
    }
    if processes <= 2048 {
        return 8;
    }
    if processes <= 4096 {
        return 16;
    }
    if processes <= 8192 {
        return 32;
    }
    64
}

/// The slot of a process, where there are this many.
#[inline(always)]
pub fn slot_of(processes: usize, process: u32) -> u32
    requires few { processes ≤ 16384 }
    requires process { process < processes }
    ensures value { result ≡ slot_of processes process }
    ensures within { result < 256 }
{
    let size = slot_size(processes);
    // Mostly it is the process's own.
    if size == 1 {
        return process;
    }
    process / size
}
