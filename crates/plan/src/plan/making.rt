// The empty plan.

ghost use Rattle.std.specs.Prelude.{◌≡◌, [], IfOk};
ghost use Rattle.plan.specs.Meaning.{nothing};
ghost use Rattle.plan.specs.Plans.{means, text_of};

use crate::plan::{MOST_BYTES, Plan};
use crate::rows::Name;
use crate::tables::Tables;
use std::alloc::{AllocError, Global};

impl Plan {
    // The empty plan, with all the memory that a plan may need.
    pub fn empty(heap: Global) -> Result<Plan, AllocError>
        ensures { IfOk result (λ p. (means p ≡ nothing) × (text_of p ≡ []) × (p.title.len ≡ 0)) }
    {
        let tables = Tables::reserved(heap)?;
        let text = Vec::with_capacity(heap, MOST_BYTES)?;
        let title = Name { place: 0, len: 0 };
        Ok(Plan {
            title,
            tables,
            text,
        })
    }
}
