// The definitions of all bins.

ghost use Rattle.productions.specs.Desks.{Produces, rows};
ghost use Rattle.bins.specs.Bins.{sort_group_in, definitions_in, bins_in};

use crate::group::GroupRow;
use crate::sorting::first_unsorted;
use grammar::{Symbol, any_symbol, expect, name};
use keywords::Keyword;
use productions::{Desk, declared, some_rows};
use refusals::{LoadFault, RuleFault};
use text_bytes::Mark;

// = name ; }
fn sort_group<'a, 't>(desk: &mut Desk<'a, 't>) -> Result<(), LoadFault>
    ensures { Produces sort_group_in (λ _. rows desk.new) desk.old desk.new result }
{
    expect(&mut desk.reader, Symbol::Mark(Mark::Equals))?;
    let word = name(&mut desk.reader)?;
    let t = &mut *desk.tables;
    let group = declared(t.groups.as_slice(), desk.text, word)?;
    if let Some(place) = first_unsorted(t.bins.as_slice(), group) {
        return Err(RuleFault::NoSortBin(place).into());
    }
    t.sort_group = group;
    expect(&mut desk.reader, Symbol::Mark(Mark::Semicolon))?;
    expect(&mut desk.reader, Symbol::Mark(Mark::CloseBrace))?;
    Ok(())
}

// { group+ SortBinGroup = name ; }
fn definitions<'a, 't>(desk: &mut Desk<'a, 't>) -> Result<(), LoadFault>
    ensures { Produces definitions_in (λ _. rows desk.new) desk.old desk.new result }
{
    expect(&mut desk.reader, Symbol::Mark(Mark::OpenBrace))?;
    let first = any_symbol(&mut desk.reader)?;
    let next = some_rows(&GroupRow, desk, first)?;
    next.must_be(Symbol::Keyword(Keyword::SortBinGroup))?;
    sort_group(desk)
}

// BinDefs { group+ SortBinGroup = name ; }
#[tactic(auto, unfolding(crate::specs::Bins::bins_in))]
pub fn bins<'a, 't>(desk: &mut Desk<'a, 't>) -> Result<(), LoadFault>
    ensures { Produces bins_in (λ _. rows desk.new) desk.old desk.new result }
{
    expect(&mut desk.reader, Symbol::Keyword(Keyword::BinDefs))?;
    definitions(desk)
}
