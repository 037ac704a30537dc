// A test: its class, its name and what it sets. Class and settings are read and not kept.

ghost use Rattle.std.specs.Prelude.{◌≡◌, ℕ, ◌+◌, ◌≤◌, IfOk, if◌then◌else◌};
ghost use Rattle.tokens.specs.Terminals.{count};
ghost use Rattle.tokens.specs.Reading.{rest};
ghost use Rattle.refusals.specs.Steps.{Takes, MayTake, ended, many};
ghost use Rattle.productions.specs.Desks.{Produces, rows};
ghost use Rattle.declarations.specs.Tests.{setting_in, setter_turn, setters_in, test_in};

use grammar::{Symbol, expect, name, name_or_close, setter_value};
use plan::Test;
use productions::{Desk, fresh_runnable, room};
use refusals::LoadFault;
use text_bytes::Mark;
use tokens::Reader;
use values::value_from;

// name | string | value
fn setting<'a>(r: &mut Reader<'a>) -> Result<(), LoadFault>
    ensures { Takes setting_in (λ u. u) r.old r.new result }
{
    if let Some(start) = setter_value(r)? {
        value_from(r, start)?;
    }
    Ok(())
}

// A setter behind its name, and whether the name of another follows.
fn setter_turn<'a>(r: &mut Reader<'a>) -> Result<bool, LoadFault>
    ensures told { ended (λ more. (more, tt)) result (rest r.new) ≡ setter_turn tt (rest r.old) }
    ensures on { IfOk result (λ more. count (rest r.new) + (if more then 1 else 0) ≤ count (rest r.old)) }
{
    expect(r, Symbol::Mark(Mark::Equals))?;
    setting(r)?;
    expect(r, Symbol::Mark(Mark::Semicolon))?;
    Ok(name_or_close(r)?)
}

// setter+ }   behind the name of the first. No list of entries is like it: what goes on is the next setter's name.
fn setters_on<'a>(r: &mut Reader<'a>) -> Result<(), LoadFault>
    ensures { MayTake (many setter_turn tt) (λ u. u) r.old r.new result }
{
    while setter_turn(r)? {}
    Ok(())
}

// { setter+ }
fn setters<'a>(r: &mut Reader<'a>) -> Result<(), LoadFault>
    ensures { Takes setters_in (λ u. u) r.old r.new result }
{
    expect(r, Symbol::Mark(Mark::OpenBrace))?;
    name(r)?;
    setters_on(r)
}

// name name { setter+ }: the class, which may be any name, the test's own name, and what it sets
#[tactic(auto, unfolding(crate::specs::Tests::test_in))]
pub fn test<'a, 't>(desk: &mut Desk<'a, 't>, place: usize) -> Result<(), LoadFault>
    ensures { Produces (λ text. test_in text place) (λ _. rows desk.new) desk.old desk.new result }
{
    let t = &mut *desk.tables;
    room(&t.tests, place)?;
    name(&mut desk.reader)?;
    let word = name(&mut desk.reader)?;
    let name = fresh_runnable(t, desk.text, word)?;
    setters(&mut desk.reader)?;
    t.tests.add(Test { name });
    Ok(())
}
