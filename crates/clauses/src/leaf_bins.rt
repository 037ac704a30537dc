// The leaf bin of a clause.

ghost use Rattle.std.specs.Prelude.{◌≡◌};
ghost use Rattle.std.specs.List.{slice_get};
ghost use Rattle.plan.specs.Drafts.{drafted};
ghost use Rattle.refusals.specs.Steps.{Takes, MayTake};
ghost use Rattle.clauses.specs.Clauses.{leaf_of, leaf_in, set_bin_in};

use grammar::{Found, Symbol, any_symbol, expect, name};
use keywords::Keyword;
use plan::{Bin, Tables};
use productions::declared;
use refusals::{LoadFault, RuleFault};
use text_bytes::Mark;
use tokens::Reader;

// Whether the bin of this number is a leaf bin of the group.
fn is_leaf_of(bins: &[Bin], bin: usize, group: usize) -> bool
    ensures { result ≡ leaf_of group (slice_get bins.now bin) }
{
    bins.get(bin).is_some_and(|b| b.leaf && b.group == group)
}

// name . name ;
fn leaf<'a>(r: &mut Reader<'a>, text: &[u8], t: &Tables) -> Result<Option<usize>, LoadFault>
    ensures { Takes (leaf_in text.now (drafted t.now)) (λ x. x) r.old r.new result }
{
    let g = name(r)?;
    let group = declared(t.groups.as_slice(), text, g)?;
    expect(r, Symbol::Mark(Mark::FullStop))?;
    let b = name(r)?;
    let bin = declared(t.bins.as_slice(), text, b)?;
    if !is_leaf_of(t.bins.as_slice(), bin, group) {
        return Err(RuleFault::WrongKind(b.place).into());
    }
    expect(r, Symbol::Mark(Mark::Semicolon))?;
    Ok(Some(bin))
}

// [SetBin name . name ;] and the symbol behind it
pub fn set_bin<'a>(
    r: &mut Reader<'a>,
    text: &[u8],
    t: &Tables,
    next: Found,
) -> Result<(Option<usize>, Found), LoadFault>
    ensures { MayTake (set_bin_in text.now (drafted t.now) next) (λ x. x) r.old r.new result }
{
    if !next.is_keyword(Keyword::SetBin) {
        return Ok((None, next));
    }
    let leaf = leaf(r, text, t)?;
    Ok((leaf, any_symbol(r)?))
}
