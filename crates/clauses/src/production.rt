// A clause whole.

ghost use Rattle.std.specs.Prelude.{◌≡◌, ℕ};
ghost use Rattle.plan.specs.Drafts.{drafted};
ghost use Rattle.refusals.specs.Steps.{Takes};
ghost use Rattle.productions.specs.Desks.{Produces, rows};
ghost use Rattle.clauses.specs.Clauses.{end_in, body_in, clause_in};

use crate::counter_list::counters;
use crate::leaf_bins::set_bin;
use crate::value_list::values;
use crate::verdicts::verdict;
use crate::ways::next;
use grammar::{Found, Symbol, any_symbol, expect};
use plan::{Clause, Next, Span, Tables};
use productions::{Desk, room};
use refusals::LoadFault;
use text_bytes::Mark;
use tokens::Reader;

// [SetBin ..] (GoTo .. | Return ..) }
fn end<'a>(
    r: &mut Reader<'a>,
    text: &[u8],
    t: &Tables,
    found: Found,
) -> Result<(Option<usize>, Next), LoadFault>
    ensures { Takes (end_in text.now (drafted t.now) found) (λ x. x) r.old r.new result }
{
    let (leaf, found) = set_bin(r, text, t, found)?;
    let next = next(r, found)?;
    expect(r, Symbol::Mark(Mark::CloseBrace))?;
    Ok((leaf, next))
}

// [Property ..] [IncrementCounters ..] [SetBin ..] (GoTo .. | Return ..) }, and the row of the clause that lists these values
fn body<'a, 't>(desk: &mut Desk<'a, 't>, values: Span) -> Result<Clause, LoadFault>
    ensures made { Produces (λ text. body_in text values) (λ row. (rows desk.new, row)) desk.old desk.new result }
    ensures kept { (rows desk.new).clauses ≡ (rows desk.old).clauses }
{
    let t = &*desk.tables;
    let from = t.mentions.len();
    let found = any_symbol(&mut desk.reader)?;
    let (verdict, found) = verdict(&mut desk.reader, found)?;
    let found = counters(desk, found)?;
    let t = &*desk.tables;
    let counters = Span {
        from,
        to: t.mentions.len(),
    };
    let (leaf, next) = end(&mut desk.reader, desk.text, t, found)?;
    Ok(Clause {
        values,
        verdict,
        counters,
        leaf,
        next,
    })
}

// value (, value)* { [Property ..] [IncrementCounters ..] [SetBin ..] (GoTo .. | Return ..) } behind the keyword Result at `place`,
// for the item whose values begin at the row `first`.
#[tactic(auto, unfolding(crate::specs::Clauses::clause_in))]
pub fn clause<'a, 't>(desk: &mut Desk<'a, 't>, first: usize, place: usize) -> Result<(), LoadFault>
    ensures { Produces (λ text. clause_in text place first) (λ _. rows desk.new) desk.old desk.new result }
{
    let t = &*desk.tables;
    room(&t.clauses, place)?;
    let from = t.values.len();
    values(desk, first)?;
    let t = &*desk.tables;
    let values = Span {
        from,
        to: t.values.len(),
    };
    let row = body(desk, values)?;
    let t = &mut *desk.tables;
    t.clauses.add(row);
    Ok(())
}
