//! What observers see of journals of small designs, each derived by hand from the source, and a journal that is found of an observed loose run.

use super::compare::assert_entries;
use super::held::design_of;
use super::scarce::{Scarce, ScarceCall, assert_done};
use crate::claims::{fail, holds};
use design::{Design, RegId};
use fixtures::entries::{A1, A5, T0, T1, T2, T3};
use loose::transition::LooseTransition;
use loosejournals::{LeadScope, SeenJournal, classes_of, seen_journal};
use model::end::{End, Limits};
use model::entry::Entry;
use observers::{Observation, Observing, observe_journal, push_seen};
use regions::Machine;
use std::alloc::{AllocError, Global};
use std::process::Abort;

/// Two processes that give a register a value, and one that prints a line and waits.
const RACE: &[u8] =
    b"module t; reg a; initial a=1'b0; initial a=1'b1; initial begin $display(\"go\"); #5 ; end endmodule";

/// Lines before and behind an advance, and registers of one digit and of four.
const TWO: &[u8] =
    b"module t; reg a; reg [3:0] b; initial begin a=1'b1; b=4'b1x0z; $display(\"one\"); #1 $display(\"two\"); end endmodule";

/// The run finishes.
const FINISH: &[u8] = b"module t; reg a; initial begin a=1'b1; #1 $finish; end endmodule";

/// A design, what is seen of it (nothing but its lines, or these registers), and a journal. Then the text and what is seen of the last state.
#[derive(Clone, Copy)]
struct SightRow<'a> {
    source: &'a [u8],
    registers: Option<&'a [RegId]>,
    journal: &'a [Entry],
    text: &'a [u8],
    seen: &'a [u8],
}

/// In the order of the processes, the register ends at 1.
const IN_ORDER: SightRow<'static> = SightRow {
    source: RACE,
    registers: Some(&[0]),
    journal: &[T0, T1, T2, A5, T3],
    text: b"go\n\x800\n1\n",
    seen: b"\x805\n1\n",
};

const ROWS: &[SightRow<'static>] = &[
    IN_ORDER,
    // in the other order the register ends at 0
    SightRow {
        journal: &[T1, T0, T2, A5, T3],
        text: b"go\n\x800\n0\n",
        seen: b"\x805\n0\n",
        ..IN_ORDER
    },
    // its lines don't tell
    SightRow {
        registers: None,
        text: b"go\n",
        seen: b"",
        ..IN_ORDER
    },
    // the times alone
    SightRow {
        registers: Some(&[]),
        text: b"go\n\x800\n",
        seen: b"\x805\n",
        ..IN_ORDER
    },
    // a register that isn't there
    SightRow {
        registers: Some(&[7, 0]),
        text: b"go\n\x800\n\n1\n",
        seen: b"\x805\n\n1\n",
        ..IN_ORDER
    },
    // nothing was taken yet
    SightRow {
        journal: &[],
        text: b"",
        seen: b"\x800\nx\n",
        ..IN_ORDER
    },
    SightRow {
        source: TWO,
        registers: Some(&[1, 0]),
        journal: &[T0, A1, T1],
        text: b"one\n\x800\n1x0z\n1\ntwo\n",
        seen: b"\x801\n1x0z\n1\n",
    },
    // nothing is seen where the run has finished
    SightRow {
        source: FINISH,
        registers: Some(&[0]),
        journal: &[T0, A1, T1],
        text: b"\x800\n1\n",
        seen: b"",
    },
];

// The observer of these registers, or of none but the lines.
fn observing_of(rt: &impl Abort, alloc: Global, registers: Option<&[RegId]>) -> Observing {
    match registers {
        None => Observing::Lines,
        Some(registers) => {
            let list = Vec::from_slice(alloc, registers).expect(rt, "memory");
            Observing::Registers(list)
        }
    }
}

// What is seen of a row's journal.
fn observation_of(
    rt: &impl Abort,
    alloc: Global,
    design: &Design,
    observing: &Observing,
    row: &SightRow<'_>,
) -> Result<Option<Observation>, AllocError> {
    holds(rt, row.journal.len() <= 100, "a long journal");
    observe_journal(alloc, design, observing, row.journal)
}

// That is what the row says.
fn assert_seen(rt: &impl Abort, found: &Option<Observation>, row: &SightRow<'_>) {
    match found {
        Some(observation) => {
            holds(rt, observation.text.as_slice() == row.text, "another text");
            holds(rt, observation.seen.as_slice() == row.seen, "another end");
        }
        None => fail(rt, "an entry wasn't taken"),
    }
}

impl ScarceCall for SightRow<'_> {
    fn is_done(&self, rt: &impl Abort, memory: &mut Scarce) -> bool {
        let alloc = memory.alloc;
        memory.open(rt);
        let design = design_of(rt, alloc, self.source);
        let observing = observing_of(rt, alloc, self.registers);
        memory.leave(rt);
        let answer = observation_of(rt, alloc, &design, &observing, self);
        memory.open(rt);
        match answer {
            Ok(found) => {
                assert_seen(rt, &found, self);
                true
            }
            Err(_) => false,
        }
    }
}

#[test]
fn an_unlawful_journal_is_not_seen(rt: HostRuntime) {
    let alloc = rt.alloc();
    let design = design_of(&rt, alloc, RACE);
    // the first event is taken once
    let found = observe_journal(alloc, &design, &Observing::Lines, &[T0, T0]).expect(&rt, "memory");
    holds(&rt, found.is_none(), "a journal");
}

#[test]
fn journals_are_seen_or_refused_memory(rt: HostRuntime) {
    for row in ROWS {
        assert_done(&rt, rt.alloc(), row);
    }
}

// What is seen of these registers at the start stands behind the bytes.
fn assert_pushed(rt: &impl Abort, alloc: Global, registers: Option<&[RegId]>, wanted: &[u8]) {
    let design = design_of(rt, alloc, TWO);
    let observing = observing_of(rt, alloc, registers);
    let machine = Machine::start(alloc, &design).expect(rt, "memory");
    let mut bytes = Vec::from_slice(alloc, b"ab").expect(rt, "memory");
    push_seen(&mut bytes, &observing, &machine).expect(rt, "memory");
    holds(rt, bytes.as_slice() == wanted, "other bytes");
}

#[test]
fn what_is_seen_stands_behind_the_bytes(rt: HostRuntime) {
    assert_pushed(&rt, rt.alloc(), None, b"ab");
    assert_pushed(&rt, rt.alloc(), Some(&[0, 1]), b"ab\x800\nx\nxxxx\n");
}

/// The loose run of the first row's order.
const MOVES: &[LooseTransition] = &[
    LooseTransition::Process(0),
    LooseTransition::Process(1),
    LooseTransition::Process(2),
    LooseTransition::Change(A5),
    LooseTransition::Process(2),
];

// What is found of that loose run.
fn seen_of(rt: &impl Abort, alloc: Global, end: End) -> Option<SeenJournal> {
    let design = design_of(rt, alloc, RACE);
    let classes = classes_of(alloc, &design).expect(rt, "memory");
    let observing = observing_of(rt, alloc, IN_ORDER.registers);
    let scope = LeadScope {
        alloc,
        design: &design,
        limits: Limits {
            until: Some(8),
            max_entries: 100,
        },
        classes: &classes,
    };
    seen_journal(scope, &observing, MOVES, end).expect(rt, "memory")
}

#[test]
fn the_journal_of_an_observed_run_is_found(rt: HostRuntime) {
    match seen_of(&rt, rt.alloc(), End::Quiet) {
        Some(found) => {
            assert_entries(&rt, &found.journal, IN_ORDER.journal);
            holds(&rt, found.text.as_slice() == IN_ORDER.text, "another text");
            holds(
                &rt,
                found.end.seen.as_slice() == IN_ORDER.seen,
                "another sight",
            );
            holds(&rt, found.end.end == End::Quiet, "another end");
        }
        None => fail(&rt, "no journal"),
    }
}
