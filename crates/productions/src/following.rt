// Rows that follow one another: the bins of a group, the clauses of an item, and so on.

ghost use Rattle.std.specs.Prelude.{◌≡◌, Bool, List, ℕ};
ghost use Rattle.tokens.specs.Terminals.{Tokens};
ghost use Rattle.grammar.specs.declared.symbols.Found.{Found};
ghost use Rattle.plan.specs.Drafts.{Draft};
ghost use Rattle.refusals.specs.Steps.{Loaded};
ghost use Rattle.productions.specs.Desks.{Produces, MayProduce, rows};
ghost use Rattle.productions.specs.Following.{rows_in, some_rows_in, braced_in};

use crate::desk::Desk;
use grammar::{Found, GrammarFault, Symbol, any_symbol, expect};
use refusals::LoadFault;
use text_bytes::Mark;

// How a row is read: which symbols begin one, and what stands behind the symbol.
pub trait Row {
    // Whether the symbol read last begins a row.
    ghost begins: { Self → Found → Bool };

    // What is read behind that symbol.
    ghost production: { Self → Found → List ℕ → Draft → Tokens → Loaded Draft };

    fn begins(&self, next: Found) -> bool
        ensures { result ≡ begins self.now next };

    fn read<'a, 't>(&self, desk: &mut Desk<'a, 't>, next: Found) -> Result<(), LoadFault>
        ensures { Produces (production self.now next) (λ _. rows desk.new) desk.old desk.new result };
}

// Rows as long as the symbol read last begins one, and the symbol behind them.
pub fn rows<'a, 't, R: Row>(
    row: &R,
    desk: &mut Desk<'a, 't>,
    first: Found,
) -> Result<Found, LoadFault>
    ensures { MayProduce (rows_in (R.begins row.now) (R.production row.now) first) (λ next. (rows desk.new, next)) desk.old desk.new result }
{
    let mut next = first;
    while row.begins(next) {
        row.read(desk, next)?;
        next = any_symbol(&mut desk.reader)?;
    }
    Ok(next)
}

// One row at least.
pub fn some_rows<'a, 't, R: Row>(
    row: &R,
    desk: &mut Desk<'a, 't>,
    first: Found,
) -> Result<Found, LoadFault>
    ensures { MayProduce (some_rows_in (R.begins row.now) (R.production row.now) first) (λ next. (rows desk.new, next)) desk.old desk.new result }
{
    if !row.begins(first) {
        return Err(GrammarFault::NotAllowed(first.place).into());
    }
    rows(row, desk, first)
}

// { row row .. }
pub fn braced<'a, 't, R: Row>(row: &R, desk: &mut Desk<'a, 't>) -> Result<(), LoadFault>
    ensures { Produces (braced_in (R.begins row.now) (R.production row.now)) (λ _. rows desk.new) desk.old desk.new result }
{
    expect(&mut desk.reader, Symbol::Mark(Mark::OpenBrace))?;
    let first = any_symbol(&mut desk.reader)?;
    let next = some_rows(row, desk, first)?;
    Ok(next.must_be(Symbol::Mark(Mark::CloseBrace))?)
}
