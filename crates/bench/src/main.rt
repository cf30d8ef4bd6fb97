//! What bench/check.sh, bench/plan.sh and bench/run.sh measure. The first word says what is done:
//!
//! - `check`: one graph at the limits is checked;
//! - `plan TIMES`: one operation at the limits is planned so often, and its graph checked;
//! - `run NODES TIMES`: one graph of so many nodes is run so often.
//!
//! Without a word each is done: one plan before, one run of 64 nodes.
#![tactic(auto)]

mod checking;
mod drawing;
mod planning;
mod running;

use std::env;
use std::process::ExitCode;

// What the words ask for; None for any others, and where something fails.
fn run(rt: &HostRuntime) -> Option<()> {
    let mut words = env::args(rt).ok()?.skip(1);
    let Some(which) = words.next() else {
        checking::run(rt)?;
        planning::run(rt, 1)?;
        return running::run(rt, 64, 1);
    };
    if which.as_str() == "check" {
        return checking::run(rt);
    }
    if which.as_str() == "plan" {
        return planning::run(rt, words.next()?.as_str().parse::<u32>().ok()?);
    }
    if which.as_str() == "run" {
        let nodes = words.next()?.as_str().parse::<u32>().ok()?;
        return running::run(rt, nodes, words.next()?.as_str().parse::<u32>().ok()?);
    }
    None
}

fn main(rt: HostRuntime) -> ExitCode {
    match run(&rt) {
        Some(()) => ExitCode::SUCCESS,
        None => ExitCode::FAILURE,
    }
}
