// Where a clause leads.

ghost use Rattle.refusals.specs.Steps.{Takes};
ghost use Rattle.clauses.specs.Clauses.{next_in};

use grammar::{Found, GrammarFault, Symbol, expect, name};
use keywords::Keyword;
use plan::Next;
use refusals::LoadFault;
use text_bytes::Mark;
use tokens::Reader;
use values::value;

// GoTo name ; | Return value ; of a target the place of its name is told, since its item may be declared later.
pub fn next<'a>(r: &mut Reader<'a>, found: Found) -> Result<Next, LoadFault>
    ensures { Takes (next_in found) (λ x. x) r.old r.new result }
{
    let next = match found.symbol {
        Symbol::Keyword(Keyword::GoTo) => Next::GoTo(name(r)?.place),
        Symbol::Keyword(Keyword::Return) => Next::Return(value(r)?.value),
        _ => return Err(GrammarFault::NotAllowed(found.place).into()),
    };
    expect(r, Symbol::Mark(Mark::Semicolon))?;
    Ok(next)
}
