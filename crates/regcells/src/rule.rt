//! The rule of one register's cell: what its words say, what each pass knows, and what a step tells.
use crate::words::WORDS;
use atomic_table::{Join, Split};
use crossbeam_utils::atomic::seq_cell::{Pass, RuledSeqCell};
use crossbeam_utils::rule::{Outcome, Protocol};
use logic4::bits::Bits;
use std::collections::LinkedList;
use std::marker::{Brand, PhantomData};

/// What a pass knows of a register: a beginning of its values, and for the holder all of them. `shown` is what it was
/// told of by another pass. No value of it is made.
pub struct View {
    pub holds: bool,
    pub seen: LinkedList<Bits>,
    pub shown: LinkedList<Bits>,
}

/// The words are the last value and its version.
pub struct Growing;

impl Protocol<[u64; WORDS], View> for Growing {
    ghost use Rattle.std.specs.Prelude.{[]};
    ghost use Rattle.regcells.specs.RegisterRule.{holder, CellInvariant};

    ghost holds = { CellInvariant };

    ghost first = { holder [] };
}

/// A load by a seat.
pub struct RegisterLoad;

impl Outcome<[u64; WORDS], View> for RegisterLoad {
    ghost use Rattle.regcells.specs.RegisterRule.{HasLoadedRegister};

    ghost then = { HasLoadedRegister };
}

/// A load by the holder.
pub struct Checks;

impl Outcome<[u64; WORDS], View> for Checks {
    ghost use Rattle.regcells.specs.RegisterRule.{HasCheckedRegister};

    ghost then = { HasCheckedRegister };
}

/// Which values a store gives the register, one after another. The words tell no more than the last of them, so each call
/// names them.
pub trait Giving {
    ghost use Rattle.std.specs.Prelude.{List};
    ghost use Rattle.logic4.specs.Vector.{Vector};

    ghost given: { List Vector };
}

impl Giving for Brand {
    ghost use Rattle.std.specs.Prelude.{[]};

    ghost given = { [] };
}

/// A store by the holder.
pub struct Stores<X: Giving> {
    of: PhantomData<X>,
}

impl<X: Giving> Outcome<[u64; WORDS], View> for Stores<X> {
    ghost use Rattle.regcells.specs.RegisterRule.{Stored};

    ghost then = { Stored X.given };
}

/// A note of what a pass has seen.
pub struct Notes;

impl Split<View> for Notes {
    ghost use Rattle.regcells.specs.RegisterRule.{reader};

    ghost left = { λ v. v };

    ghost right = { λ v. reader v.seen };
}

impl Join<View> for Notes {
    ghost use Rattle.std.specs.Prelude.{[]};
    ghost use Rattle.regcells.specs.RegisterRule.{reader, informed};

    ghost both = { informed };

    ghost spent = { reader [] };
}

/// A register's cell.
pub type Cell = RuledSeqCell<[u64; WORDS], View, Growing, WORDS>;

/// A pass of a register's cell.
pub type RegPass = Pass<[u64; WORDS], View>;
