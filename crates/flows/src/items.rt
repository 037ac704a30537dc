// An item: what it runs, and its clauses.

ghost use Rattle.std.specs.Prelude.{◌≡◌};
ghost use Rattle.keywords.specs.declared.Keyword.TheVariants as kw;
ghost use Rattle.plan.specs.Drafts.{drafted};
ghost use Rattle.refusals.specs.Shapes.{is_keyword};
ghost use Rattle.refusals.specs.Steps.{Takes};
ghost use Rattle.productions.specs.Desks.{Produces, rows};
ghost use Rattle.clauses.specs.Clauses.{clause_in};
ghost use Rattle.flows.specs.Flows.{clauses_in, runs_in, run_listed, item_in};

use crate::checks::{depth_at, items_listed, items_of};
use clauses::clause;
use grammar::{Found, name};
use keywords::Keyword;
use names::find;
use plan::{Item, Runs, Span, Tables, rows_from};
use productions::{Desk, Row, braced, declared, fresh, room};
use refusals::{LoadFault, RuleFault};
use tokens::Reader;

// The depth of flows that are run; the flow that runs one is one deeper.
const DEEPEST_RUN: usize = 7;

// A clause of the item whose values begin at the row `first`.
#[derive(Clone, Copy)]
struct ClauseRow {
    first: usize,
}

impl Row for ClauseRow {
    ghost begins = { λ _. is_keyword kw.Result };

    ghost production = { λ row next text. clause_in text next.place row.first };

    fn begins(&self, next: Found) -> bool {
        next.is_keyword(Keyword::Result)
    }

    fn read<'a, 't>(&self, desk: &mut Desk<'a, 't>, next: Found) -> Result<(), LoadFault> {
        clause(desk, self.first, next.place)
    }
}

// { clause+ }
fn clauses<'a, 't>(desk: &mut Desk<'a, 't>) -> Result<(), LoadFault>
    ensures { Produces clauses_in (λ _. rows desk.new) desk.old desk.new result }
{
    let t = &*desk.tables;
    let first = t.values.len();
    braced(&ClauseRow { first }, desk)
}

// The name of a test, or of a flow whose closing brace came before.
fn read_runs<'a>(r: &mut Reader<'a>, text: &[u8], t: &Tables) -> Result<Runs, LoadFault>
    ensures { Takes (runs_in text.now (drafted t.now)) (λ x. x) r.old r.new result }
{
    let word = name(r)?;
    if let Some(test) = find(t.tests.as_slice(), text, word.bytes) {
        return Ok(Runs::Test(test));
    }
    let flow = declared(t.flows.as_slice(), text, word)?;
    if depth_at(t.flows.as_slice(), flow) > DEEPEST_RUN {
        return Err(RuleFault::TooDeep(word.place).into());
    }
    Ok(Runs::Flow(flow))
}

// Whether an item that lists the values from the row `first` on lists every value that the flow returns which it runs.
fn run_listed(t: &Tables, first: usize, runs: Runs) -> bool
    ensures { result ≡ run_listed (drafted t.now) first runs }
{
    match runs {
        Runs::Test(_) => true,
        Runs::Flow(f) => items_listed(
            items_of(t.flows.as_slice(), t.items.as_slice(), f),
            t.clauses.as_slice(),
            rows_from(t.values.as_slice(), first),
        ),
    }
}

// name name { clause+ } behind the keyword at `place`, in the flow whose items begin at the row `first`
pub fn item<'a, 't>(desk: &mut Desk<'a, 't>, first: usize, place: usize) -> Result<(), LoadFault>
    ensures { Produces (λ text. item_in text first place) (λ _. rows desk.new) desk.old desk.new result }
{
    let t = &*desk.tables;
    room(&t.items, place)?;
    let word = name(&mut desk.reader)?;
    let name = fresh(rows_from(t.items.as_slice(), first), desk.text, word)?;
    let runs = read_runs(&mut desk.reader, desk.text, t)?;
    let values = t.values.len();
    let from = t.clauses.len();
    clauses(desk)?;
    let t = &mut *desk.tables;
    if !run_listed(t, values, runs) {
        return Err(RuleFault::ReturnNotListed(word.place).into());
    }
    let clauses = Span {
        from,
        to: t.clauses.len(),
    };
    t.items.add(Item {
        name,
        runs,
        clauses,
    });
    Ok(())
}
