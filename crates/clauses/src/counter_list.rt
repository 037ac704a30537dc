// The counters of a clause.

ghost use Rattle.std.specs.Prelude.{◌≡◌, length, drop};
ghost use Rattle.productions.specs.Desks.{Produces, MayProduce, rows};
ghost use Rattle.clauses.specs.Parts.{among};
ghost use Rattle.clauses.specs.Clauses.{mention_in, mentions_in, counters_in};

use grammar::{Found, any_symbol, name};
use keywords::Keyword;
use plan::rows_from;
use productions::{Desk, Entry, declared, list, room};
use refusals::{LoadFault, RuleFault};
use text_bytes::Mark;

// Whether the counter is one of those named from the row `from` on.
fn names_counter(mentions: &[usize], from: usize, counter: usize) -> bool
    ensures { result ≡ among (λ k. k) counter (drop from mentions.now) }
{
    rows_from(mentions, from).contains(&counter)
}

// The name of a counter, named once by the clause whose mentions begin at the row `from`.
#[derive(Clone, Copy)]
struct Mention {
    from: usize,
}

impl Entry for Mention {
    ghost production = { λ entry text. mention_in text entry.from };

    fn read<'a, 't>(&self, desk: &mut Desk<'a, 't>) -> Result<(), LoadFault> {
        let word = name(&mut desk.reader)?;
        let t = &mut *desk.tables;
        let counter = declared(t.counters.as_slice(), desk.text, word)?;
        if names_counter(t.mentions.as_slice(), self.from, counter) {
            return Err(RuleFault::Repeated(word.place).into());
        }
        room(&t.mentions, word.place)?;
        t.mentions.add(counter);
        Ok(())
    }
}

// name (, name)* ;
fn mentions<'a, 't>(desk: &mut Desk<'a, 't>) -> Result<(), LoadFault>
    ensures made { Produces (λ text d. mentions_in text (length d.mentions) d) (λ _. rows desk.new) desk.old desk.new result }
    ensures kept { (rows desk.new).clauses ≡ (rows desk.old).clauses }
{
    let t = &*desk.tables;
    let from = t.mentions.len();
    list(&Mention { from }, desk, Mark::Semicolon)
}

// [IncrementCounters name (, name)* ;] and the symbol behind it
pub fn counters<'a, 't>(desk: &mut Desk<'a, 't>, next: Found) -> Result<Found, LoadFault>
    ensures made { MayProduce (λ text d. counters_in text d next) (λ next. (rows desk.new, next)) desk.old desk.new result }
    ensures kept { (rows desk.new).clauses ≡ (rows desk.old).clauses }
{
    if !next.is_keyword(Keyword::IncrementCounters) {
        return Ok(next);
    }
    mentions(desk)?;
    Ok(any_symbol(&mut desk.reader)?)
}
