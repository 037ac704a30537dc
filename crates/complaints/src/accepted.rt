// accepted: NAME: how much of each the plan holds

use plan::{Plan, Sizes};
use std::fmt;

// A plan that was loaded.
#[derive(Clone, Copy)]
pub struct Accepted<'a>(pub &'a Plan);

impl fmt::Display for Accepted<'_> {
    fn fmt<W: fmt::Write>(&self, f: &mut fmt::Formatter<W>) -> fmt::Result {
        let plan = self.0;
        let name = std::str::from_utf8(plan.name(plan.title)).unwrap_or("");
        let Sizes {
            groups,
            bins,
            counters,
            tests,
            flows,
            items,
        } = plan.sizes();
        write!(
            f,
            "accepted: {name}: {groups} groups, {bins} bins, {counters} counters, {tests} tests, {flows} flows, {items} items"
        )
    }
}
