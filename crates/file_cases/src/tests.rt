use crate::cases::{CASES, PLAN};
use plan::{Tables, part_of};
use plan_file::read_text;
use std::alloc::Global;
use std::test::Fail;

// What is read: the plan's name and how many groups, bins, counters, tests, flows, items and clauses; or the refusal.
fn outcome(heap: Global, text: &[u8]) -> Result<String, Fail> {
    let mut t = Tables::reserved(heap)?;
    match read_text(text, &mut t) {
        Ok(title) => {
            let name = std::str::from_utf8(part_of(text, title))?;
            Ok(format!(in heap;
                "accepted {name} {} {} {} {} {} {} {}",
                t.groups.len(),
                t.bins.len(),
                t.counters.len(),
                t.tests.len(),
                t.flows.len(),
                t.items.len(),
                t.clauses.len()
            )?)
        }
        Err(fault) => Ok(fault.to_string(heap)?),
    }
}

// old|new|outcome: whether this is what comes of it
fn try_case(heap: Global, case: &str) -> Result<bool, Fail> {
    let (old, rest) = case.split_once('|').ok_or("a case has no new text")?;
    let (new, expected) = rest.split_once('|').ok_or("a case has no outcome")?;
    let (before, after) = PLAN
        .split_once(old)
        .ok_or("the text to replace is not there")?;
    let text = format!(in heap; "{before}{new}{after}")?;
    let came = outcome(heap, text.as_bytes())?;
    Ok(came.as_str() == expected)
}

#[test]
fn texts_come_to_what_the_table_says(rt: HostRuntime) -> Result<(), Fail> {
    for case in CASES.split('~').skip(1) {
        let holds = try_case(rt.alloc(), case)?;
        assert!(rt; holds, "{}", case);
    }
    Ok(())
}
