//! What a call works with beside the state under the lock.
ghost use Rattle.std.specs.Prelude.{◌≡◌};

use crate::naming::Naming;
use regcells::RegCells;
use runstate::MarkCell;
use std::alloc::Global;
use std::marker::PhantomData;
use std::sync::Wait;

/// The runtime and the allocator of a call, and the cells of the registers and the mark of its gate, which seats load without
/// the lock.
#[derive(Drop)]
pub struct Context<'g, K: Naming, R: Wait> {
    pub(crate) rt: &'g R,
    pub(crate) alloc: Global,
    pub(crate) cells: &'g RegCells,
    pub(crate) mark: &'g MarkCell,
    pub(crate) of: PhantomData<K>,
    ghost cells_are: { cells.now ≡ K.named.cells },
    ghost mark_is: { mark.now.table.shared.table_id ≡ K.named.mark },
}
