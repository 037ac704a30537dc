// What follows the bins.

ghost use Rattle.std.specs.Prelude.{ℕ};
ghost use Rattle.keywords.specs.declared.Keyword.TheVariants as kw;
ghost use Rattle.plan.specs.Drafts.{drafted};
ghost use Rattle.refusals.specs.Steps.{Takes};
ghost use Rattle.refusals.specs.Shapes.{is_keyword, optional};
ghost use Rattle.productions.specs.Desks.{Produces, MayProduce, rows};
ghost use Rattle.declarations.specs.Counters.{counters_in};
ghost use Rattle.declarations.specs.Tests.{test_in};
ghost use Rattle.flows.specs.Flows.{flow_in};
ghost use Rattle.plan_file.specs.File.{main_name_in, main_in, flows_in, sections_in};

use declarations::{counters, test};
use flows::flow;
use grammar::{Found, Symbol, any_symbol, expect, name};
use keywords::Keyword;
use names::find;
use plan::Tables;
use productions::{Desk, Row, rows, some_rows};
use refusals::{LoadFault, RuleFault};
use text_bytes::Mark;
use tokens::Reader;

#[derive(Clone, Copy)]
struct TestRow;

impl Row for TestRow {
    ghost begins = { λ _. is_keyword kw.Test };

    ghost production = { λ _ next text. test_in text next.place };

    fn begins(&self, next: Found) -> bool {
        next.is_keyword(Keyword::Test)
    }

    fn read<'a, 't>(&self, desk: &mut Desk<'a, 't>, next: Found) -> Result<(), LoadFault> {
        test(desk, next.place)
    }
}

#[derive(Clone, Copy)]
struct FlowRow;

impl Row for FlowRow {
    ghost begins = { λ _. is_keyword kw.Flow };

    ghost production = { λ _ next text. flow_in text next.place };

    fn begins(&self, next: Found) -> bool {
        next.is_keyword(Keyword::Flow)
    }

    fn read<'a, 't>(&self, desk: &mut Desk<'a, 't>, next: Found) -> Result<(), LoadFault> {
        flow(desk, next.place)
    }
}

// [counters], and the symbol behind it
fn maybe_counters<'a, 't>(desk: &mut Desk<'a, 't>, first: Found) -> Result<Found, LoadFault>
    ensures { MayProduce (λ text d. optional kw.Counters d (counters_in text d) first) (λ next. (rows desk.new, next)) desk.old desk.new result }
{
    if !first.is_keyword(Keyword::Counters) {
        return Ok(first);
    }
    counters(desk)?;
    Ok(any_symbol(&mut desk.reader)?)
}

// The name of the main flow.
fn main_name<'a>(r: &mut Reader<'a>, text: &[u8], t: &Tables) -> Result<usize, LoadFault>
    ensures { Takes (main_name_in text.now (drafted t.now)) (λ x. x) r.old r.new result }
{
    let n = name(r)?;
    if let Some(f) = find(t.flows.as_slice(), text, n.bytes) {
        return Ok(f);
    }
    if find(t.tests.as_slice(), text, n.bytes).is_some() {
        return Err(RuleFault::WrongKind(n.place).into());
    }
    Err(RuleFault::NotDeclared(n.place).into())
}

// { MainFlow = name ; }
fn main_flow<'a, 't>(desk: &mut Desk<'a, 't>) -> Result<(), LoadFault>
    ensures { Produces main_in (λ _. rows desk.new) desk.old desk.new result }
{
    expect(&mut desk.reader, Symbol::Mark(Mark::OpenBrace))?;
    expect(&mut desk.reader, Symbol::Keyword(Keyword::MainFlow))?;
    expect(&mut desk.reader, Symbol::Mark(Mark::Equals))?;
    let t = &mut *desk.tables;
    let main = main_name(&mut desk.reader, desk.text, t)?;
    expect(&mut desk.reader, Symbol::Mark(Mark::Semicolon))?;
    expect(&mut desk.reader, Symbol::Mark(Mark::CloseBrace))?;
    t.main_flow = main;
    Ok(())
}

// flow+ FlowDefs { MainFlow = name ; } from the symbol that was read last
fn flow_section<'a, 't>(desk: &mut Desk<'a, 't>, first: Found) -> Result<(), LoadFault>
    ensures { Produces (λ text d. flows_in text (d, first)) (λ _. rows desk.new) desk.old desk.new result }
{
    let next = some_rows(&FlowRow, desk, first)?;
    next.must_be(Symbol::Keyword(Keyword::FlowDefs))?;
    main_flow(desk)
}

// [counters] test* flow+ FlowDefs { MainFlow = name ; }
pub fn sections<'a, 't>(desk: &mut Desk<'a, 't>) -> Result<(), LoadFault>
    ensures { Produces sections_in (λ _. rows desk.new) desk.old desk.new result }
{
    let first = any_symbol(&mut desk.reader)?;
    let first = maybe_counters(desk, first)?;
    let first = rows(&TestRow, desk, first)?;
    flow_section(desk, first)
}
