//! Measures what the crates below cost. `rt run -- WHAT` makes a measure, and prints the least of several runs; `WHAT N` makes
//! it with N as the amount of work. `MEASURES` has the names. Without a word each measure is made once on a little work, and it
//! is printed how much there was. `tools/speed` times the program as a whole.
#![tactic(auto)]

mod cells;
mod deques;
mod sources;
mod timing;
mod turns;
mod updates;
mod vectors;

use std::sync::Wait;
use std::{env, io};
use timing::{How, must};

/// What can be measured.
#[derive(Clone, Copy)]
enum What {
    Vectors,
    Turn,
    Update,
    Cells,
    Deques,
}

const MEASURES: &[(&str, What)] = &[
    ("vectors", What::Vectors),
    ("turn", What::Turn),
    ("update", What::Update),
    ("cells", What::Cells),
    ("deques", What::Deques),
];

fn make<R: Wait>(rt: &HostRuntime, threads: &R, what: What, how: How) -> io::Result<()> {
    match what {
        What::Vectors => vectors::measure(rt, how),
        What::Turn => turns::measure(rt, how),
        What::Update => updates::measure(rt, how),
        What::Cells => cells::measure(rt, threads, how),
        What::Deques => deques::measure(rt, how),
    }
}

/// Makes the measure of this name, or all where the word is empty.
fn make_named<R: Wait>(rt: &HostRuntime, threads: &R, word: &str, how: How) -> io::Result<()> {
    let mut is_name = false;
    for &(name, what) in MEASURES {
        if word.is_empty() || word == name {
            println!(rt; "{name}:")?;
            make(rt, threads, what, how)?;
            is_name = true;
        }
    }
    must(is_name)
}

fn main(rt: HostRuntime) -> io::Result<()> {
    let mut words = env::args(&rt)?;
    words.next();
    let Some(word) = words.next() else {
        let how = How {
            is_timed: false,
            size: None,
        };
        return make_named(&rt, &rt, "", how);
    };
    let second = words.next().unwrap_or(String::new(rt.alloc()));
    let how = How {
        is_timed: true,
        size: second.as_str().parse::<u32>().ok(),
    };
    make_named(&rt, &rt, word.as_str(), how)
}
