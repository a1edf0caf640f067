//! Tests of the crates through which a source goes on its way to a design, and of those that run a design on one thread, by
//! their public calls. There are tests alone.
//!
//! `language`:
//! 1. `parsing` has a page of source that is read, cut, and with each byte replaced.
//! 2. `faults_told` has what is told of a source in too little memory, and where its processes stand.
//! 3. `tasks` has formats that no source can spell, and `conversions` texts of values, orders with signs and extensions.
//!
//! `behaviour`:
//! 1. `turns` has what small processes do in a turn, and `too_long` turns that are too long. All are made by `turn` from a source.
//! 2. `event_queue` has journals of small designs: which entries are permitted after each entry, and what is refused. Its `searched` and `keys`
//!    have what a search of all orders asks: what may be next, copies, and keys of states that two orders of turns lead to.
//! 3. `journal_text` has texts of journals of both versions with what `journal` reads, what it writes, and readers and writers
//!    that fail.
//! 4. `replays` has what a fault prints, and replays from bytes to bytes by readers and writers that fail.
//! 5. `refused` makes the calls from bytes to bytes in too little memory, which `scarce` holds.
//! 6. `dumps` has waves of small designs, and their dumps.
//! 7. `replaced` has a source and its journal that are cut, and with each byte replaced.
//! 8. `searches` has searches of all orders of small designs, with their texts, at bounds and in too little memory.
//! 9. `observed` has what observers see of journals, also in too little memory, and a journal that is found of an observed loose run.
//!
//! What sources are accepted, the faults of sources and of journals, the operations and the edges of vectors, the values of literals, operators and
//! concatenations, and the lines of whole journals are rows of `shown`.
#![tactic(auto)]

#[cfg(test)]
mod behaviour;
#[cfg(test)]
mod claims;
#[cfg(test)]
mod language;
