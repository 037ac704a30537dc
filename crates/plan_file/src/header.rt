// The version and the name of the plan.

ghost use Rattle.refusals.specs.Steps.{Takes};
ghost use Rattle.plan_file.specs.File.{header_in};

use grammar::{Symbol, decimal, expect, name};
use keywords::Keyword;
use plan::Name;
use productions::name_of;
use refusals::{LoadFault, RuleFault};
use text_bytes::Mark;
use tokens::Reader;

// Version decimal ; TestPlan name ;
pub fn header<'a>(r: &mut Reader<'a>) -> Result<Name, LoadFault>
    ensures { Takes header_in (λ x. x) r.old r.new result }
{
    expect(r, Symbol::Keyword(Keyword::Version))?;
    let version = decimal(r)?;
    if version.bytes != b"1.0".as_slice() {
        return Err(RuleFault::OutOfRange(version.place).into());
    }
    expect(r, Symbol::Mark(Mark::Semicolon))?;
    expect(r, Symbol::Keyword(Keyword::TestPlan))?;
    let title = name(r)?;
    expect(r, Symbol::Mark(Mark::Semicolon))?;
    Ok(name_of(title))
}
