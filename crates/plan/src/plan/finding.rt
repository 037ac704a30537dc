// Finding the clause for a value and the sort number of a bin.

ghost use Rattle.std.specs.Prelude.{◌≡◌, ℕ, true, map, length, is_some, position, Some};
ghost use Rattle.plan.specs.Meaning.{rows_of, code_of, lists, clause_for, clauses_at, sort_number};
ghost use Rattle.plan.specs.Finding.{clause_number, clause_meant, first_of_group, LeafAt, SortedAs};
ghost use Rattle.plan.specs.Plans.{draft_of, means};

use crate::plan::Plan;
use crate::rows::{Bin, Clause, Value};
use crate::values::lists;

// The place of the first of the clauses that lists the value.
fn first_listing(clauses: &[Clause], values: &[Value], value: Value) -> Option<usize>
    ensures { result ≡ position (λ c. lists value.code (map code_of (rows_of c.values values.now))) clauses.now }
{
    clauses
        .iter()
        .position(|c| lists(c.values.of(values), value))
}

// The first bin of the group that is met going up from a bin. No way up is longer than the table.
pub fn first_of_group(bins: &[Bin], group: usize, from: usize) -> Option<Bin>
    ensures { result ≡ first_of_group bins.now group (length bins.now) from }
{
    let mut at = from;
    for _ in 0..bins.len() {
        let bin = bins.get(at).copied()?;
        if bin.group == group {
            return Some(bin);
        }
        at = bin.parent?;
    }
    None
}

impl Plan {
    // The clause of the item that lists the value.
    pub fn clause_for(&self, item: usize, value: Value) -> Option<usize>
        ensures number { result ≡ clause_number (draft_of self.now) item value.code }
        ensures meant { clause_meant (draft_of self.now) result ≡ clause_for value.code (clauses_at (means self.now) item) }
    {
        let span = self.item(item)?.clauses;
        let clauses = span.of(self.tables.clauses.as_slice());
        let k = first_listing(clauses, self.tables.values.as_slice(), value)?;
        Some(span.from + k)
    }

    // The sort number of a bin: that of the first bin of the sort group met going up from it. Every leaf bin has one.
    pub fn sort_number(&self, leaf: usize) -> Option<u32>
        ensures meant { result ≡ sort_number (means self.now) leaf }
        ensures first { (n : ℕ) → result ≡ Some n → SortedAs (means self.now) leaf n }
        ensures sorted { LeafAt (means self.now) leaf → is_some result ≡ true }
    {
        let group = self.sort_group()?;
        first_of_group(self.tables.bins.as_slice(), group, leaf).map(|bin| bin.number)
    }
}
