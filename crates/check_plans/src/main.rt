//! `check_plans [--tokens] FILE..` tells of each plan file whether it is accepted, or what is wrong with it and where.
//!
//! With `--tokens` it lists the tokens of the files that follow, one to a line: place, kind and text. It goes through all
//! files, and ends with status 1 where one was refused or could not be read.

#![tactic(auto)]

use complaints::{Accepted, Complaint};
use grammar::GrammarFault;
use load::Loader;
use plan::Plan;
use refusals::LoadFault;
use std::process::ExitCode;
use std::{env, fs, io};
use token_words::print_tokens;

// What is wanted of a file.
#[derive(Clone, Copy, PartialEq, Eq)]
enum Task {
    Check,
    ListTokens,
}

// Says what an accepted plan holds.
fn check_plan(rt: &HostRuntime, path: &str, text: &[u8]) -> anyhow::Result<Result<(), LoadFault>> {
    let mut loader = Loader::new(rt.alloc())?;
    let mut plan = Plan::empty(rt.alloc())?;
    let loaded = loader.load(&mut plan, text);
    if loaded.is_ok() {
        println!(rt; "{path}: {}", Accepted(&plan))?;
    }
    Ok(loaded)
}

fn list_tokens(rt: &HostRuntime, path: &str, text: &[u8]) -> io::Result<Result<(), LoadFault>> {
    let listed = print_tokens(rt, path, text)?;
    Ok(listed.map_err(|fault| GrammarFault::from(fault).into()))
}

// Whether the file could be read and is a plan, or, where its tokens are to be listed, has well-formed tokens only.
fn look_at(rt: &HostRuntime, path: &str, task: Task) -> anyhow::Result<bool> {
    let text = match fs::read(rt, path) {
        Ok(text) => text,
        Err(e) => {
            eprintln!(rt; "{path}: cannot be read: {e}")?;
            return Ok(false);
        }
    };
    let outcome = match task {
        Task::Check => check_plan(rt, path, text.as_slice())?,
        Task::ListTokens => list_tokens(rt, path, text.as_slice())?,
    };
    if let Err(fault) = outcome {
        println!(rt; "{path}:{}", Complaint::new(text.as_slice(), fault))?;
    }
    Ok(outcome.is_ok())
}

fn run(rt: &HostRuntime) -> anyhow::Result<ExitCode> {
    let mut task = Task::Check;
    // whether all is well with the files so far; none where no file is named
    let mut well: Option<bool> = None;
    for arg in env::args(rt)?.skip(1) {
        if arg.as_str() == "--tokens" {
            task = Task::ListTokens;
        } else {
            well = Some(look_at(rt, arg.as_str(), task)? && well.unwrap_or(true));
        }
    }
    match well {
        Some(true) => Ok(ExitCode::SUCCESS),
        Some(false) => Ok(ExitCode::FAILURE),
        None => {
            eprintln!(rt; "usage: check_plans [--tokens] FILE..")?;
            Ok(ExitCode::FAILURE)
        }
    }
}

fn main(rt: HostRuntime) -> anyhow::Result<ExitCode> {
    run(&rt)
}
