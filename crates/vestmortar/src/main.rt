// Signs and checks plates from the command line, and works scripts with a sheet in memory.
#![tactic(auto)]

mod args;
mod calls;
mod digits;
mod failure;
mod flag;
mod kind;
mod memory;
mod options;
mod script;
mod sheet_args;
mod show;
mod work;

use args::Command;
use failure::Failure;
use kind::Kind;
use permutation::Permutation;
use permutation::minalpher::Minalpher;
use permutation::words::RowWords;
use std::env;
use std::process::ExitCode;

// The words after the program's own name.
fn words(rt: &HostRuntime) -> Result<Vec<String>, Failure> {
    Ok(env::args(rt)?.skip(1).collect(rt.alloc())?)
}

fn run_by<K: Permutation>(rt: &HostRuntime, words: &[String]) -> Result<(), Failure> {
    match args::parse(rt.alloc(), words)? {
        Command::Run { script } => script::run::<K>(rt, script),
        command => {
            let outcome = work::perform::<K>(rt, command)?;
            println!(rt; "{outcome}")?;
            Ok(())
        }
    }
}

fn run(rt: &HostRuntime) -> Result<(), Failure> {
    let words = words(rt)?;
    let (kind, rest) = kind::chosen(words.as_slice())?;
    match kind {
        Kind::Rows => run_by::<RowWords>(rt, rest),
        Kind::Matrices => run_by::<Minalpher>(rt, rest),
    }
}

fn main(rt: HostRuntime) -> ExitCode {
    match run(&rt) {
        Ok(()) => ExitCode::SUCCESS,
        Err(failure) => {
            let _ = eprintln!(rt; "vestmortar: {failure}");
            ExitCode::FAILURE
        }
    }
}
