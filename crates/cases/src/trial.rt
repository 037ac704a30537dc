// One case: the plan changed, loaded, and what came of it.

use crate::expansion::push_expanded;
use anyhow::Context;
use complaints::Accepted;
use load::Loader;
use plan::Plan;
use std::alloc::Global;

#[derive(Drop)]
pub struct Bench {
    loader: Loader,
    plan: Plan,
}

// The text with the first `old` replaced by what `new` comes to; an empty `old` is the whole text.
fn replaced(heap: Global, text: &str, old: &str, new: &str) -> anyhow::Result<String> {
    let (before, behind) = if old.is_empty() {
        ("", "")
    } else {
        text.split_once(old)
            .context("a text to replace is not there")?
    };
    let mut out = String::from_str(heap, before)?;
    push_expanded(&mut out, new)?;
    out.push_str(behind)?;
    Ok(out)
}

// label|old|new|old|new ..: the label, and the plan with each old text replaced by the new one; no more than two parts are held
fn changed<'a>(heap: Global, plan: &str, case: &'a str) -> anyhow::Result<(&'a str, String)> {
    let mut parts = case.split('|');
    let label = parts.next().context("a case has no label")?;
    let mut text = String::from_str(heap, plan)?;
    while let Some(old) = parts.next() {
        let new = parts.next().context("a case has no new text")?;
        text = replaced(heap, text.as_str(), old, new)?;
    }
    Ok((label, text))
}

impl Bench {
    pub fn new(heap: Global) -> anyhow::Result<Bench> {
        Ok(Bench {
            loader: Loader::new(heap)?,
            plan: Plan::empty(heap)?,
        })
    }

    pub fn try_case(&mut self, heap: Global, plan: &str, case: &str) -> anyhow::Result<String> {
        let (label, text) = changed(heap, plan, case)?;
        match self.loader.load(&mut self.plan, text.as_bytes()) {
            Ok(()) => {
                let clauses = self.plan.tables.clauses.len();
                Ok(format!(in heap; "{label}: {}, {clauses} clauses", Accepted(&self.plan))?)
            }
            Err(fault) => Ok(format!(in heap; "{label}: {fault}")?),
        }
    }
}
