//! `plancheck [FILE]` finds the first word of a plan file that no plan may hold.
//!
//! It lists the tokens of the file, `plan.tpl` where none is named, one to a line: place, kind and text. At the first
//! fault it says where it is, what it is, and what to mend, and ends with status 1.

#![tactic(auto)]

mod complaint;

use complaint::Complaint;
use std::process::ExitCode;
use std::{env, fs};
use token_words::print_tokens;

// The file that the first argument names, or plan.tpl.
fn plan_path(rt: &HostRuntime) -> anyhow::Result<String> {
    match env::args(rt)?.nth(1) {
        Some(path) => Ok(path),
        None => Ok(String::from_str(rt.alloc(), "plan.tpl")?),
    }
}

fn run(rt: &HostRuntime) -> anyhow::Result<ExitCode> {
    let path = plan_path(rt)?;
    let text = match fs::read(rt, path.as_str()) {
        Ok(text) => text,
        Err(e) => {
            eprintln!(rt; "{path}: cannot be read: {e}")?;
            return Ok(ExitCode::FAILURE);
        }
    };
    match print_tokens(rt, path.as_str(), text.as_slice())? {
        Ok(()) => Ok(ExitCode::SUCCESS),
        Err(fault) => {
            println!(rt; "{path}:{}", Complaint::new(text.as_slice(), fault))?;
            Ok(ExitCode::FAILURE)
        }
    }
}

fn main(rt: HostRuntime) -> anyhow::Result<ExitCode> {
    run(&rt)
}
