//! Generated sources. Each is put into a text that is lent.

use design::Design;
use frontend::read_design;
use std::alloc::{AllocError, Global};
use std::io;

/// The design of a source of ours.
pub fn design_of(alloc: Global, source: &str) -> io::Result<Design> {
    match read_design(alloc, source.as_bytes()) {
        Ok(design) => Ok(design),
        Err(_) => Err(io::Error::from(io::ErrorKind::InvalidData)),
    }
}

/// A process that adds in a loop of this many turns, with vectors of 64 digits. A turn has 3 counted steps.
pub fn push_adds(text: &mut String, turns: u32) -> Result<(), AllocError> {
    write!(
        text,
        "module adds; reg [63:0] i, s; initial begin i=64'd0; s=64'd0; while (i<64'd{turns}) begin i=i+64'd1; s=s+i; end end endmodule\n"
    )?;
    Ok(())
}

/// So many processes in a ring: each changes the register that the next one waits for, by a nonblocking assignment.
pub fn push_ring(text: &mut String, processes: u32) -> Result<(), AllocError> {
    text.push_str("module ring;\n")?;
    for p in 0..processes {
        let next = p.wrapping_add(1) % processes.max(1);
        write!(
            text,
            "reg r{p}; always begin r{next}<=1'b1; @(r{p}) ; r{next}<=1'b0; @(r{p}) ; end\n"
        )?;
    }
    text.push_str("endmodule\n")
}

// A process that gives so many registers, for which nobody waits, this value by a nonblocking assignment at the next time.
fn push_assignments(text: &mut String, registers: u32, value: u32) -> Result<(), AllocError> {
    text.push_str("#1 ;\n")?;
    for r in 0..registers {
        write!(text, "r{r}<=32'd{value};\n")?;
    }
    Ok(())
}

/// A process that gives so many registers, for which nobody waits, a value each by a nonblocking assignment at each time.
pub fn push_updates(text: &mut String, registers: u32) -> Result<(), AllocError> {
    text.push_str("module updates;\n")?;
    for r in 0..registers {
        write!(text, "reg [31:0] r{r};\n")?;
    }
    text.push_str("always begin\n")?;
    push_assignments(text, registers, 0)?;
    push_assignments(text, registers, 1)?;
    text.push_str("end\nendmodule\n")
}
