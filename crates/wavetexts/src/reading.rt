//! An observed text that is read bit by bit: what of it is in order for good, and what isn't.
ghost use Rattle.std.specs.Prelude.{◌≡◌, ◌++◌, [], IfOk, OnOk};
ghost use Rattle.wavetexts.specs.AtTimes.{left_after, placed_line};
ghost use Rattle.wavetexts.specs.Reading.{byte_read, last_taken, line_taken, read_on, text_with, unread, whole_text};

use crate::arranging::place;
use crate::sights::{is_printed, left_after};
use std::alloc::{AllocError, Global};
use std::mem;

/// What of an observed text isn't in order for good: how many lines of what is seen are still to come, the lines that were printed since the last of
/// them, in order, and a line that has no newline yet.
#[derive(Drop)]
pub struct TextTail {
    pub left: usize,
    pub held: Vec<u8>,
    pub part: Vec<u8>,
}

// The same bytes once more.
fn copy_of(alloc: Global, bytes: &[u8]) -> Result<Vec<u8>, AllocError>
    ensures { IfOk result (λ copy. copy.items ≡ bytes.now) }
{
    let mut copy = Vec::new(alloc);
    copy.extend_from_slice(bytes)?;
    Ok(copy)
}

impl TextTail {
    /// Nothing was read.
    pub fn new(alloc: Global) -> TextTail
        ensures { text_with [] result ≡ unread }
    {
        TextTail {
            left: 0,
            held: Vec::new(alloc),
            part: Vec::new(alloc),
        }
    }

    /// The same once more. Fails where memory is refused.
    pub fn copied(&self, alloc: Global) -> Result<TextTail, AllocError>
        ensures { IfOk result (λ copy. text_with [] copy ≡ text_with [] self.now) }
    {
        let held = copy_of(alloc, &self.held)?;
        let part = copy_of(alloc, &self.part)?;
        Ok(TextTail {
            left: self.left,
            held,
            part,
        })
    }

    // Holds a printed line in its place.
    fn hold(&mut self, alloc: Global, registers: usize, line: &[u8]) -> Result<(), AllocError>
        ensures held { OnOk result (self.new.held.items ≡ placed_line line.now self.old.held.items) }
        ensures part { OnOk result (self.new.part.items ≡ self.old.part.items) }
        ensures left { OnOk result (self.new.left ≡ left_after registers line.now self.old.left) }
    {
        let held = place(alloc, line, &self.held)?;
        self.held = held;
        self.left = left_after(registers, line, self.left);
        Ok(())
    }

    // Puts the lines that are held, and then a line of what is seen, behind what is in order for good.
    fn pass(&mut self, registers: usize, line: &[u8], done: &mut Vec<u8>) -> Result<(), AllocError>
        ensures held { OnOk result (self.new.held.items ≡ []) }
        ensures part { OnOk result (self.new.part.items ≡ self.old.part.items) }
        ensures done { OnOk result (done.new.items ≡ (done.old.items ++ self.old.held.items) ++ line.now) }
        ensures left { OnOk result (self.new.left ≡ left_after registers line.now self.old.left) }
    {
        done.extend_from_slice(&self.held)?;
        done.extend_from_slice(line)?;
        self.held.clear();
        self.left = left_after(registers, line, self.left);
        Ok(())
    }

    // Takes a line: a printed one is held, and behind another one all is in order for good.
    fn take_line(
        &mut self,
        alloc: Global,
        registers: usize,
        line: &[u8],
        done: &mut Vec<u8>,
    ) -> Result<(), AllocError>
        ensures { OnOk result (text_with done.new.items self.new ≡ line_taken registers line.now (text_with done.old.items self.old)) }
    {
        if is_printed(self.left, line) {
            return self.hold(alloc, registers, line);
        }
        self.pass(registers, line, done)
    }

    // Takes the line that is read, and leaves none.
    fn take_part(
        &mut self,
        alloc: Global,
        registers: usize,
        done: &mut Vec<u8>,
    ) -> Result<(), AllocError>
        ensures { OnOk result (text_with done.new.items self.new ≡ line_taken registers self.old.part.items (record (text_with done.old.items self.old) { part = [] })) }
    {
        let line = mem::replace(&mut self.part, Vec::new(alloc));
        self.take_line(alloc, registers, &line, done)
    }

    // Reads a byte more.
    fn read_byte(
        &mut self,
        alloc: Global,
        registers: usize,
        byte: u8,
        done: &mut Vec<u8>,
    ) -> Result<(), AllocError>
        ensures { OnOk result (text_with done.new.items self.new ≡ byte_read registers (text_with done.old.items self.old) byte) }
    {
        self.part.push(byte)?;
        if byte == b'\n' {
            return self.take_part(alloc, registers, done);
        }
        Ok(())
    }

    /// Reads on, in a text with what is seen of so many registers. The answer is what is in order for good by that. Fails where memory is
    /// refused.
    pub fn read(
        &mut self,
        alloc: Global,
        registers: usize,
        bytes: &[u8],
    ) -> Result<Vec<u8>, AllocError>
        ensures { IfOk result (λ done. text_with done.items self.new ≡ read_on registers (text_with [] self.old) bytes.now) }
    {
        let mut done = Vec::new(alloc);
        for byte in bytes {
            self.read_byte(alloc, registers, *byte, &mut done)?;
        }
        Ok(done)
    }

    // Takes a last line that has no newline, if there is one.
    fn take_last(
        &mut self,
        alloc: Global,
        registers: usize,
        done: &mut Vec<u8>,
    ) -> Result<(), AllocError>
        ensures { OnOk result (text_with done.new.items self.new ≡ last_taken registers self.old.part.items (text_with done.old.items self.old)) }
    {
        if self.part.is_empty() {
            return Ok(());
        }
        self.take_part(alloc, registers, done)
    }

    /// Reads the last bytes of a text. The answer is all of it that wasn't in order for good before, in order. Fails where memory is refused.
    pub fn finish(
        &mut self,
        alloc: Global,
        registers: usize,
        bytes: &[u8],
    ) -> Result<Vec<u8>, AllocError>
        ensures { IfOk result (λ rest. rest.items ≡ whole_text registers (read_on registers (text_with [] self.old) bytes.now)) }
    {
        let mut done = self.read(alloc, registers, bytes)?;
        self.take_last(alloc, registers, &mut done)?;
        done.extend_from_slice(&self.held)?;
        Ok(done)
    }
}
