//! What a step has to do with other steps.
ghost use Rattle.std.specs.Prelude.{◌≡◌, false, []};

use crate::changes::Changes;
use crate::numbers::MaskedNumbers;
use crate::triggers::Triggers;
use loose::transition::LooseTransition;
use std::alloc::Global;
use std::marker::Model;

/// What a step has to do with others: its owner; the registers that it uses without having written them, those that it writes, and the
/// changes of their values; the events that its process goes on to wait for; the processes that it wakes, and the events that its own
/// process and these waited for; the class and the time of each update that its nonblocking assignments make (9.2.2); whether it
/// prints (17.1), meets `$strobe` (17.1.2), and meets `$finish` (17.4.1). The lists keep their room for the next step.
#[derive(Drop)]
pub struct StepNote {
    pub owner: LooseTransition,
    pub uses: MaskedNumbers,
    pub writes: MaskedNumbers,
    pub changes: Changes,
    pub awaits: Triggers,
    pub woken: MaskedNumbers,
    pub ended: Triggers,
    pub assigns: Vec<(u32, u64)>,
    pub prints: bool,
    pub strobes: bool,
    pub finishes: bool,
}

impl Model for StepNote {
    ghost use Rattle.certificates.specs.Notes.{NoteView};

    ghost Value = { NoteView };

    ghost use Rattle.certificates.specs.NoteViews.{view_of};

    ghost view = { view_of };
}

impl StepNote {
    /// A note of nothing, with its owner.
    pub fn new(alloc: Global, owner: LooseTransition) -> StepNote
        ensures { result ≡ record { owner = owner; uses = []; writes = []; changes = []; awaits = []; woken = []; ended = []; assigns = []; prints = false; strobes = false; finishes = false } }
    {
        StepNote {
            owner,
            uses: MaskedNumbers::new(alloc),
            writes: MaskedNumbers::new(alloc),
            changes: Changes::new(alloc),
            awaits: Triggers::new(alloc),
            woken: MaskedNumbers::new(alloc),
            ended: Triggers::new(alloc),
            assigns: Vec::new(alloc),
            prints: false,
            strobes: false,
            finishes: false,
        }
    }

    /// Forgets what was noted, and begins with the owner of another step. The lists keep their room.
    pub fn begin(&mut self, owner: LooseTransition)
        ensures { self.new ≡ record { owner = owner; uses = []; writes = []; changes = []; awaits = []; woken = []; ended = []; assigns = []; prints = false; strobes = false; finishes = false } }
    {
        self.owner = owner;
        self.uses.clear();
        self.writes.clear();
        self.changes.clear();
        self.awaits.clear();
        self.woken.clear();
        self.ended.clear();
        self.assigns.clear();
        self.prints = false;
        self.strobes = false;
        self.finishes = false;
    }
}
