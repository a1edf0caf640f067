//! What a worker reads, told to the probe.

use crate::probe::Probe;
use commitgate::ReadWatch;
use design::RegId;

/// The reads of a worker, of which the probe is told.
#[derive(Drop)]
pub(crate) struct WorkerReads<'r, P: Probe> {
    pub probe: &'r P,
    pub worker: u32,
}

impl<'r, P: Probe> ReadWatch for WorkerReads<'r, P> {
    fn reads(&self, register: RegId) {
        self.probe.read(self.worker, register);
    }
}
