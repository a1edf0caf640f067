//! By what a lawful run is led.

use design::Design;
use model::end::Limits;
use std::alloc::Global;

/// By what a lawful run is led along a loose one: the design of both, the limits within which it stays, and the classes of registers by
/// which the loose run was taken.
#[derive(Clone, Copy)]
pub struct LeadScope<'a> {
    pub alloc: Global,
    pub design: &'a Design,
    pub limits: Limits,
    pub classes: &'a [u32],
}
