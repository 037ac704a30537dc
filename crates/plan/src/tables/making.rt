// Tables made and emptied.

ghost use Rattle.std.specs.Prelude.{◌≡◌, IfOk};
ghost use Rattle.plan.specs.Drafts.{drafted, blank};

use crate::table::Table;
use crate::tables::Tables;
use std::alloc::{AllocError, Global};

impl Tables {
    // Empty tables, with all their memory.
    pub fn reserved(heap: Global) -> Result<Tables, AllocError>
        ensures { IfOk result (λ t. drafted t ≡ blank) }
    {
        Ok(Tables {
            groups: Table::reserved(heap)?,
            bins: Table::reserved(heap)?,
            counters: Table::reserved(heap)?,
            tests: Table::reserved(heap)?,
            flows: Table::reserved(heap)?,
            items: Table::reserved(heap)?,
            clauses: Table::reserved(heap)?,
            values: Table::reserved(heap)?,
            mentions: Table::reserved(heap)?,
            sort_group: 0,
            main_flow: 0,
        })
    }

    // No rows; the room for them stays.
    pub fn clear(&mut self)
        ensures { drafted self.new ≡ blank }
    {
        self.groups.clear();
        self.bins.clear();
        self.counters.clear();
        self.tests.clear();
        self.flows.clear();
        self.items.clear();
        self.clauses.clear();
        self.values.clear();
        self.mentions.clear();
        self.sort_group = 0;
        self.main_flow = 0;
    }
}
