//! What is told of a source with a path of control characters, and where its processes stand. What is told else are rows of `shown`.

use crate::claims::{fail, holds};
use diagnosis::diagnose::diagnose;
use diagnosis::render::render;
use locations::{ProcessLocation, processes};
use std::alloc::{AllocError, Global};
use std::process::Abort;

const SOURCE: &[u8] = b"module t;\n  initial a = 1'b0;\nendmodule\n";

const TOLD: &str = "t\\n\\t\\u{1b}.v:2:11: E1 undeclared a\n  initial a = 1'b0;\n          ^\n";

fn told(alloc: Global) -> Result<String, AllocError> {
    let diagnosis = diagnose(alloc, SOURCE, false);
    render(alloc, "t\n\t\u{1b}.v", SOURCE, &diagnosis)
}

/// Whether all is told, and nothing of memory.
pub fn is_told(rt: &impl Abort, alloc: Global) -> bool {
    match told(alloc) {
        Ok(text) => {
            let text = text.as_str();
            holds(
                rt,
                text == TOLD || text.ends_with(" memory\n"),
                "another text",
            );
            text == TOLD
        }
        Err(_) => false,
    }
}

fn assert_process(rt: &impl Abort, process: &ProcessLocation, always: bool, at: &str) {
    holds(rt, process.always == always, "a word");
    holds(rt, process.at.as_str() == at, "a line");
}

#[test]
fn processes_stand_at_their_words(rt: HostRuntime) {
    let source = b"module t;\n  initial ;\n\talways #1 ;\nendmodule\n";
    match processes(rt.alloc(), source) {
        Ok(found) => match found.as_slice() {
            [first, second] => {
                assert_process(&rt, first, false, "line 2");
                assert_process(&rt, second, true, "line 3");
            }
            _ => fail(&rt, "two processes"),
        },
        Err(_) => fail(&rt, "memory"),
    }
}
