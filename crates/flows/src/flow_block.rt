// A flow: its items, and what is settled at its closing brace.

ghost use Rattle.std.specs.Prelude.{◌≡◌, ℕ, ◌+◌, ◌<◌, ◌≤◌, length, drop};
ghost use Rattle.keywords.specs.declared.Keyword.TheVariants as kw;
ghost use Rattle.plan.specs.Drafts.{drafted};
ghost use Rattle.refusals.specs.Shapes.{is_keyword};
ghost use Rattle.productions.specs.Desks.{Produces, rows};
ghost use Rattle.flows.specs.Checks.{deepest, become};
ghost use Rattle.flows.specs.Flows.{item_in, items_in, closed, flow_in};

use crate::checks::{Targets, deepest_run};
use crate::items::item;
use grammar::{Found, name};
use keywords::Keyword;
use plan::{Flow, Name, Span, Tables, rows_from};
use productions::{Desk, Row, braced, fresh_runnable, room};
use refusals::LoadFault;

// An item of the flow whose items begin at the row `first`.
#[derive(Clone, Copy)]
struct ItemRow {
    first: usize,
}

impl Row for ItemRow {
    ghost begins = { λ _. is_keyword kw.FlowItem };

    ghost production = { λ row next text. item_in text row.first next.place };

    fn begins(&self, next: Found) -> bool {
        next.is_keyword(Keyword::FlowItem)
    }

    fn read<'a, 't>(&self, desk: &mut Desk<'a, 't>, next: Found) -> Result<(), LoadFault> {
        item(desk, self.first, next.place)
    }
}

// { item+ }
fn items<'a, 't>(desk: &mut Desk<'a, 't>) -> Result<(), LoadFault>
    ensures { Produces items_in (λ _. rows desk.new) desk.old desk.new result }
{
    let t = &*desk.tables;
    let first = t.items.len();
    braced(&ItemRow { first }, desk)
}

// The flow at its closing brace: its items are those from the row `first` on, its clauses those from the row `from` on.
fn close_flow(
    text: &[u8],
    t: &mut Tables,
    name: Name,
    first: usize,
    from: usize,
) -> Result<(), LoadFault>
    requires room { length (drafted t.old).flows < 64 }
    requires few { first + length (drop first (drafted t.old).items) ≤ 512 }
    requires shallow { deepest (drafted t.old).flows (drop first (drafted t.old).items) ≤ 7 }
    ensures { become result (drafted t.new) ≡ closed text.now name first from (drafted t.old) }
{
    let items = rows_from(t.items.as_slice(), first);
    let targets = Targets { text, first, items };
    targets.resolve(from, &mut t.clauses)?;
    let depth = 1 + deepest_run(items, t.flows.as_slice());
    let items = Span {
        from: first,
        to: t.items.len(),
    };
    t.flows.add(Flow { name, items, depth });
    Ok(())
}

// name { item+ } behind the keyword at `place`
#[tactic(auto, unfolding(crate::specs::Flows::flow_in))]
pub fn flow<'a, 't>(desk: &mut Desk<'a, 't>, place: usize) -> Result<(), LoadFault>
    ensures { Produces (λ text. flow_in text place) (λ _. rows desk.new) desk.old desk.new result }
{
    let t = &*desk.tables;
    room(&t.flows, place)?;
    let word = name(&mut desk.reader)?;
    let name = fresh_runnable(t, desk.text, word)?;
    let first = t.items.len();
    let from = t.clauses.len();
    items(desk)?;
    close_flow(desk.text, &mut *desk.tables, name, first, from)
}
