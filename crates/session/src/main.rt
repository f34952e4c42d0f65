// Runs an order file over one book and a table board, and prints its reports.
#![tactic(auto)]

mod input;

use anyhow::Context;
use input::order_file;
use replay::day::replay;
use std::process::ExitCode;

fn run(rt: &HostRuntime) -> anyhow::Result<()> {
    let file = order_file(rt)?;
    let text = replay(&file, rt.alloc()).context("there is not enough memory")?;
    Ok(rt.print(&text)?)
}

fn main(rt: HostRuntime) -> ExitCode {
    match run(&rt) {
        Ok(()) => ExitCode::SUCCESS,
        Err(e) => {
            // Where even this cannot be written, the status still tells.
            let _ = rt.eprintln(format_args!("session: {e}"));
            ExitCode::FAILURE
        }
    }
}
