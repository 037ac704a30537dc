// The counters.

ghost use Rattle.productions.specs.Desks.{Produces, rows};
ghost use Rattle.declarations.specs.Counters.{counter_in, counters_in};

use grammar::{Symbol, expect, name};
use plan::Counter;
use productions::{Desk, Entry, fresh, list, room};
use refusals::LoadFault;
use text_bytes::Mark;

#[derive(Clone, Copy)]
struct CounterName;

impl Entry for CounterName {
    ghost production = { λ _. counter_in };

    fn read<'a, 't>(&self, desk: &mut Desk<'a, 't>) -> Result<(), LoadFault> {
        let word = name(&mut desk.reader)?;
        let t = &mut *desk.tables;
        let name = fresh(t.counters.as_slice(), desk.text, word)?;
        room(&t.counters, word.place)?;
        t.counters.add(Counter { name });
        Ok(())
    }
}

// { name (, name)* }
#[tactic(auto, unfolding(crate::specs::Counters::counters_in))]
pub fn counters<'a, 't>(desk: &mut Desk<'a, 't>) -> Result<(), LoadFault>
    ensures { Produces counters_in (λ _. rows desk.new) desk.old desk.new result }
{
    expect(&mut desk.reader, Symbol::Mark(Mark::OpenBrace))?;
    list(&CounterName, desk, Mark::CloseBrace)
}
