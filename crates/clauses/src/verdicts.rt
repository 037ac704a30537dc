// The verdict of a clause.

ghost use Rattle.std.specs.Prelude.{◌≡◌};
ghost use Rattle.refusals.specs.Steps.{Takes, MayTake};
ghost use Rattle.clauses.specs.Clauses.{verdict_of, property_in, verdict_in};

use grammar::{Found, Symbol, any_symbol, expect, string};
use keywords::Keyword;
use plan::Verdict;
use refusals::{LoadFault, RuleFault};
use text_bytes::Mark;
use tokens::Reader;

fn verdict_of(bytes: &[u8]) -> Option<Verdict>
    ensures { result ≡ verdict_of bytes.now }
{
    match bytes {
        b"Pass" => Some(Verdict::Pass),
        b"Fail" => Some(Verdict::Fail),
        _ => None,
    }
}

// PassFail = string ;
fn property<'a>(r: &mut Reader<'a>) -> Result<Verdict, LoadFault>
    ensures { Takes property_in (λ x. x) r.old r.new result }
{
    expect(r, Symbol::Keyword(Keyword::PassFail))?;
    expect(r, Symbol::Mark(Mark::Equals))?;
    let s = string(r)?;
    let verdict = verdict_of(s.bytes).ok_or(RuleFault::OutOfRange(s.place))?;
    expect(r, Symbol::Mark(Mark::Semicolon))?;
    Ok(verdict)
}

// [Property PassFail = string ;] and the symbol behind it
pub fn verdict<'a>(r: &mut Reader<'a>, next: Found) -> Result<(Verdict, Found), LoadFault>
    ensures { MayTake (verdict_in next) (λ x. x) r.old r.new result }
{
    if !next.is_keyword(Keyword::Property) {
        return Ok((Verdict::Unmarked, next));
    }
    let verdict = property(r)?;
    Ok((verdict, any_symbol(r)?))
}
