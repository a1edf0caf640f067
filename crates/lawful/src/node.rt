//! A node of the search: where a loose run so far has come to.
ghost use Rattle.std.specs.Prelude.{◌≡◌};
ghost use Rattle.regions.specs.Machine.{state_at};
ghost use Rattle.lawful.specs.LooseNodes.{IsReadyNode};

use explore::Successor;
use loose::transition::LooseTransition;
use regions::Machine;
use std::alloc::Global;
use wavetexts::TextTail;

/// Where a loose run so far has come to: the machine that took its transitions, with none of their lines left in it. It is on the heap,
/// so that a node is moved and dropped as a pointer.
///
/// Where what is printed at one time is compared in any order, it has what was printed since time passed last, too.
#[derive(Drop)]
pub struct LooseNode<'d> {
    pub machine: Box<Machine<'d>>,
    pub tail: TextTail,
}

/// The node of a machine that took these transitions, with the lines that they printed.
pub(crate) fn next_of<'d>(
    alloc: Global,
    machine: Box<Machine<'d>>,
    moves: Vec<LooseTransition>,
) -> Successor<LooseNode<'d>, LooseTransition>
    ensures moves { result.moves ≡ moves }
    ensures printed { result.printed.items ≡ machine.entry.value.lines }
    ensures ready { IsReadyNode machine.entry.value.code result.node }
    ensures state { state_at result.node.machine.value ≡ state_at machine.entry.value }
{
    let mut machine = machine;
    let printed = machine.take_lines().into_bytes();
    machine.stands();
    Successor {
        node: LooseNode {
            machine,
            tail: TextTail::new(alloc),
        },
        printed,
        moves,
    }
}
