// What is checked of a whole item and a whole flow.

ghost use Rattle.std.specs.Prelude.{◌≡◌, ℕ, ◌+◌, ◌≤◌, map, length};
ghost use Rattle.std.specs.List.{slice_get};
ghost use Rattle.flows.specs.Checks.{return_listed, clauses_listed, items_listed, flow_items, depth_in, depth_of, deepest, word_at, next_resolved, clause_resolved, resolved_from, become};

use names::find;
use plan::{Clause, Flow, Item, MOST_CLAUSES, Next, Runs, Table, Value, lists, rows_from};
use refusals::{LoadFault, RuleFault};
use text_bytes::{ByteKind, run_end};

// The items of a flow.
pub fn items_of<'a>(flows: &[Flow], items: &'a [Item], f: usize) -> &'a [Item]
    ensures { result.now ≡ flow_items items.now (slice_get flows.now f) }
{
    match flows.get(f) {
        Some(flow) => flow.items.of(items),
        None => &[],
    }
}

fn return_listed(next: Next, values: &[Value]) -> bool
    ensures { result ≡ return_listed values.now next }
{
    match next {
        Next::GoTo(_) => true,
        Next::Return(v) => lists(values, v),
    }
}

// Whether every value that one of the clauses returns is listed.
pub fn clauses_listed(clauses: &[Clause], values: &[Value]) -> bool
    ensures { result ≡ clauses_listed values.now clauses.now }
{
    clauses.iter().all(|c| return_listed(c.next, values))
}

// Whether every value that a clause of one of the items returns is listed.
pub fn items_listed(items: &[Item], clauses: &[Clause], values: &[Value]) -> bool
    ensures { result ≡ items_listed values.now clauses.now items.now }
{
    items
        .iter()
        .all(|it| clauses_listed(it.clauses.of(clauses), values))
}

// The depth of a flow; 0 where there is none.
pub fn depth_at(flows: &[Flow], f: usize) -> usize
    ensures { result ≡ depth_in (slice_get flows.now f) }
{
    flows.get(f).map_or(0, |flow| flow.depth)
}

fn depth_of(runs: Runs, flows: &[Flow]) -> usize
    ensures { result ≡ depth_of flows.now runs }
{
    match runs {
        Runs::Test(_) => 0,
        Runs::Flow(f) => depth_at(flows, f),
    }
}

// The depth of the deepest flow that one of the items runs.
pub fn deepest_run(items: &[Item], flows: &[Flow]) -> usize
    ensures { result ≡ deepest flows.now items.now }
{
    items
        .iter()
        .map(|it| depth_of(it.runs, flows))
        .max()
        .unwrap_or(0)
}

fn word_at(text: &[u8], place: usize) -> &[u8]
    ensures { result.now ≡ word_at text.now place }
{
    let from = rows_from(text, place);
    &from[..run_end(from, 0, ByteKind::OfName)]
}

// The items that a GoTo of a flow can lead to: those from the row `first` on, and the text that names them.
#[derive(Clone, Copy)]
pub struct Targets<'a> {
    pub text: &'a [u8],
    pub first: usize,
    pub items: &'a [Item],
    ghost few: { first + length items.now ≤ 512 },
}

impl<'a> Targets<'a> {
    // The item that is named at the place of a GoTo.
    #[tactic(auto, using(names::proofs::Found::found_below))]
    fn next(&self, next: Next) -> Result<Next, LoadFault>
        ensures { result ≡ next_resolved self.now.text.now self.now.first self.now.items.now next }
    {
        match next {
            Next::GoTo(place) => match find(self.items, self.text, word_at(self.text, place)) {
                Some(k) => Ok(Next::GoTo(self.first + k)),
                None => Err(RuleFault::NotDeclared(place).into()),
            },
            Next::Return(v) => Ok(Next::Return(v)),
        }
    }

    fn clause(&self, c: Clause) -> Result<Clause, LoadFault>
        ensures { result ≡ clause_resolved self.now.text.now self.now.first self.now.items.now c }
    {
        let next = self.next(c.next)?;
        Ok(Clause { next, ..c })
    }

    // Every GoTo of the clauses from a row on leads to the item that is named at its place, or the first that does not is told.
    pub fn resolve(
        &self,
        from: usize,
        clauses: &mut Table<Clause, MOST_CLAUSES>,
    ) -> Result<(), LoadFault>
        ensures { become result clauses.new ≡ resolved_from self.now.text.now self.now.first self.now.items.now from clauses.old }
    {
        for i in from..clauses.len() {
            let row = self.clause(clauses.as_slice()[i])?;
            clauses.set(i, row);
        }
        Ok(())
    }
}
