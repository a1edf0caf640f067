//! What a walk works in, and what each of its steps goes by.
ghost use Rattle.std.specs.Prelude.{◌≡◌};

use crate::rules::WalkRules;
use certificates::certificate::Certificate;
use certificates::note::StepNote;
use combinational::Network;
use loose::transition::LooseTransition;
use std::alloc::Global;
use turn::TurnLog;

// The most events of one way that notes have to certify, and the most where many were taken in vain.
const MOST_EVENTS: u32 = 4_096;

const FEW_EVENTS: u32 = 64;

// How many events may be taken in vain before that, besides as many as ways took that were kept.
const SPARE_EVENTS: u32 = 262_144;

/// What walks work in, one after another: the way that is tried, and the log, the note and the certificate of that. A try with held processes
/// leaves for the next one how many these were, the most of all tries, and where some of them were in its way, the rest.
#[derive(Drop)]
pub struct LooseRoom {
    pub(crate) log: TurnLog,
    pub(crate) note: StepNote,
    pub(crate) certificate: Certificate,
    pub(crate) way: Vec<LooseTransition>,
    pub(crate) tried: usize,
    pub(crate) most: usize,
    pub(crate) rest: Vec<u32>,
    spare: u32,
}

impl LooseRoom {
    /// Room for the first walk. It grows with what walks need.
    pub fn new(alloc: Global) -> LooseRoom {
        LooseRoom {
            log: TurnLog::new(alloc),
            note: StepNote::new(alloc, LooseTransition::Process(0)),
            certificate: Certificate::new(alloc),
            way: Vec::new(alloc),
            tried: 0,
            most: 0,
            rest: Vec::new(alloc),
            spare: SPARE_EVENTS,
        }
    }

    /// Leaves nothing of the last try with held processes.
    pub(crate) fn forget_held(&mut self) {
        self.tried = 0;
        self.most = 0;
        self.rest.clear();
    }

    /// How many events a way may take that notes have to certify.
    pub(crate) fn most_events(&self) -> u32 {
        self.spare.max(FEW_EVENTS).min(MOST_EVENTS)
    }

    /// Notes that so many events were taken in vain.
    pub(crate) fn spend(&mut self, events: u32)
        ensures { self.new ≡ record self.old { spare = self.new.spare } }
    {
        self.spare = self.spare.saturating_sub(events);
    }

    /// Notes that the events of the way were taken for good.
    pub(crate) fn regain(&mut self)
        ensures { self.new ≡ record self.old { spare = self.new.spare } }
    {
        let events = self.way.len().min(MOST_EVENTS as usize) as u32;
        self.spare = self.spare.saturating_add(events).min(SPARE_EVENTS);
    }
}

/// What each step of a walk goes by: the combinational processes of its design, and the rules of the walk.
#[derive(Clone, Copy)]
pub(crate) struct WalkScope<'a> {
    pub(crate) alloc: Global,
    pub(crate) network: &'a Network,
    pub(crate) rules: WalkRules<'a>,
}
