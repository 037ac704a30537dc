// Reading a plan. Every call answers, whatever number it is asked for.

ghost use Rattle.std.specs.Prelude.{◌≡◌, ℕ, ◌<◌, true, false, length, Some, None};
ghost use Rattle.std.specs.Option.{option_map};
ghost use Rattle.std.specs.List.{slice_get};
ghost use Rattle.plan.specs.Meaning.{nothing, bin_of, flow_of, item_of, parent_in};
ghost use Rattle.plan.specs.Rules.{Lawful, spelt};
ghost use Rattle.plan.specs.Finding.{FlowDepth};
ghost use Rattle.plan.specs.Plans.{draft_of, text_of, means};

use crate::parts::part_of;
use crate::plan::Plan;
use crate::rows::{Bin, Flow, Item, Name, Sizes};

// Rows and their numbers as the tables have them are told by the tables. The calls here promise what the plan means by them.
impl Plan {
    // Either nothing is in the plan, or it keeps every rule.
    pub fn is_empty(&self) -> bool
        ensures empty { result ≡ true → means self.now ≡ nothing }
        ensures lawful { result ≡ false → ∥ Lawful (means self.now) ∥₁ }
    {
        self.sizes().flows == 0
    }

    // How much of each the plan holds.
    pub fn sizes(&self) -> Sizes
        ensures groups { result.groups ≡ length (draft_of self.now).groups }
        ensures bins { result.bins ≡ length (means self.now).bins }
        ensures counters { result.counters ≡ (means self.now).counters }
        ensures tests { result.tests ≡ (means self.now).tests }
        ensures flows { result.flows ≡ length (means self.now).flows }
        ensures items { result.items ≡ length (means self.now).items }
    {
        Sizes {
            groups: self.tables.groups.len(),
            bins: self.tables.bins.len(),
            counters: self.tables.counters.len(),
            tests: self.tables.tests.len(),
            flows: self.tables.flows.len(),
            items: self.tables.items.len(),
        }
    }

    #[tactic(auto, using(crate::proofs::Readings::bin_meant_lem))]
    pub fn bin(&self, i: usize) -> Option<Bin>
        ensures held { result ≡ slice_get (draft_of self.now).bins i }
        ensures meant { option_map bin_of result ≡ slice_get (means self.now).bins i }
    {
        self.tables.bins.get(i)
    }

    pub fn parent(&self, i: usize) -> Option<usize>
        ensures { result ≡ parent_in (slice_get (means self.now).bins i) }
    {
        self.bin(i)?.parent
    }

    pub fn flow(&self, i: usize) -> Option<Flow>
        ensures held { result ≡ slice_get (draft_of self.now).flows i }
        ensures meant { option_map flow_of result ≡ slice_get (means self.now).flows i }
        ensures depth { (f : Flow) → result ≡ Some f → FlowDepth (means self.now) i (flow_of f) f.depth }
    {
        self.tables.flows.get(i)
    }

    #[tactic(auto, using(crate::proofs::Readings::item_meant_lem))]
    pub fn item(&self, i: usize) -> Option<Item>
        ensures held { result ≡ slice_get (draft_of self.now).items i }
        ensures meant { option_map (item_of (draft_of self.now)) result ≡ slice_get (means self.now).items i }
    {
        self.tables.items.get(i)
    }

    // The main flow, which is a flow of the plan; the empty plan has none.
    pub fn main_flow(&self) -> Option<usize>
        ensures meant { result ≡ (means self.now).main_flow }
        ensures flow { (f : ℕ) → result ≡ Some f → f < length (means self.now).flows }
    {
        if self.tables.flows.len() == 0 {
            return None;
        }
        Some(self.tables.main_flow)
    }

    #[tactic(auto, using(crate::proofs::Readings::no_sort_group, crate::proofs::Readings::some_sort_group))]
    pub fn sort_group(&self) -> Option<usize>
        ensures { result ≡ (means self.now).sort_group }
    {
        if self.tables.bins.len() == 0 {
            return None;
        }
        Some(self.tables.sort_group)
    }

    // The bytes of a name: as many of them as stand in the text.
    pub fn name(&self, n: Name) -> &[u8]
        ensures { result.now ≡ spelt (text_of self.now) n }
    {
        part_of(self.text.as_slice(), n)
    }
}
