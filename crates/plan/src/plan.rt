// A plan: its name, its tables and its text. It is empty, or it keeps every rule.

ghost use Rattle.std.specs.Prelude.{◌≤◌, vec_capacity};
ghost use Rattle.plan.specs.Drafts.{drafted};
ghost use Rattle.plan.specs.Meaning.{meaning};
ghost use Rattle.plan.specs.Rules.{Keeps, NamesOnce, DepthsTold};

use crate::rows::Name;
use crate::tables::Tables;

mod finding;
mod making;
mod reading;

pub use finding::first_of_group;

// The most bytes of a plan text.
pub const MOST_BYTES: usize = 65536;

// Whoever makes or changes a plan shows that it keeps the rules, so its fields are open to the crate that loads one.
#[derive(Drop)]
pub struct Plan {
    // the plan's name; the empty plan has a name of no bytes
    pub title: Name,
    pub tables: Tables,
    pub text: Vec<u8>,
    ghost room: { 65536 ≤ vec_capacity text },
    ghost keeps: { ∥ Keeps (meaning (drafted tables)) ∥₁ },
    ghost names: { ∥ NamesOnce text.items (drafted tables) ∥₁ },
    ghost depths: { ∥ DepthsTold (drafted tables) ∥₁ },
}
