//! The vectors of an expression under way.
ghost use Rattle.std.specs.Prelude.{◌≡◌, ◌∷◌, reverse, OnOk};
ghost use Rattle.design.specs.ExpressionSteps.{topmost, below};
ghost use Rattle.turn.specs.Evaluate.{vectors};

use logic4::bits::Bits;
use std::alloc::{AllocError, Global};

/// The topmost vector, and the rest of the stack, whose last one is the next below it. Most steps of an expression take the
/// topmost one alone, and change it where it stands. While there is none yet, what stands there counts for nothing.
#[derive(Drop)]
pub(crate) struct Stack {
    pub top: Bits,
    pub rest: Vec<Bits>,
}

/// Takes the last vector off.
pub(crate) fn pop(rest: &mut Vec<Bits>) -> Bits
    ensures value { result ≡ topmost (reverse rest.old.items) }
    ensures rest { reverse rest.new.items ≡ below (reverse rest.old.items) }
{
    match rest.pop() {
        Some(value) => value,
        None => Bits::unknown(1),
    }
}

impl Stack {
    /// Room that grows with the first expression that wants it.
    pub fn new(alloc: Global) -> Self {
        Stack {
            top: Bits::unknown(1),
            rest: Vec::new(alloc),
        }
    }

    /// Keeps the topmost vector with the rest, so that another may stand above it.
    pub fn keep_top(&mut self) -> Result<(), AllocError>
        ensures { OnOk result (reverse self.new.rest.items ≡ self.old.top ∷ reverse self.old.rest.items) }
    {
        self.rest.push(self.top)?;
        Ok(())
    }

    /// Puts a vector above the topmost one.
    pub fn put(&mut self, value: &Bits) -> Result<(), AllocError>
        ensures { OnOk result (vectors self.new ≡ value.now ∷ vectors self.old) }
    {
        self.keep_top()?;
        self.top = *value;
        Ok(())
    }
}
