// A bin: its name, its number, its label and the bin that it stands below.

ghost use Rattle.std.specs.Prelude.{◌≡◌};
ghost use Rattle.keywords.specs.declared.Keyword.TheVariants.{LeafBin};
ghost use Rattle.refusals.specs.Shapes.{is_keyword};
ghost use Rattle.refusals.specs.Steps.{Takes};
ghost use Rattle.bins.specs.Bins.{number_taken, bin_number_in, leaf_at, parent_in, begins_bin, bin_in};

use grammar::{Found, Symbol, any_symbol, expect, name, number, string};
use keywords::Keyword;
use plan::Bin;
use productions::{Desk, Row, declared, fresh, room};
use refusals::{LoadFault, RuleFault};
use text_bytes::Mark;
use tokens::Reader;

// Whether a bin of the group has this number.
fn number_taken(bins: &[Bin], group: usize, number: u32) -> bool
    ensures { result ≡ number_taken group number bins.now }
{
    bins.iter().any(|b| b.group == group && b.number == number)
}

fn is_leaf(bins: &[Bin], i: usize) -> bool
    ensures { result ≡ leaf_at bins.now i }
{
    bins.get(i).is_some_and(|b| b.leaf)
}

// A number that no bin of the group has yet.
fn bin_number<'a>(r: &mut Reader<'a>, bins: &[Bin], group: usize) -> Result<u32, LoadFault>
    ensures { Takes (bin_number_in group bins.now) (λ n. n) r.old r.new result }
{
    let n = number(r)?;
    if n.value > 65535 {
        return Err(RuleFault::OutOfRange(n.place).into());
    }
    if number_taken(bins, group, n.value) {
        return Err(RuleFault::Repeated(n.place).into());
    }
    Ok(n.value)
}

// [, name] ;
fn parent<'a>(r: &mut Reader<'a>, text: &[u8], bins: &[Bin]) -> Result<Option<usize>, LoadFault>
    ensures { Takes (parent_in text.now bins.now) (λ p. p) r.old r.new result }
{
    let next = any_symbol(r)?;
    if next.is_mark(Mark::Semicolon) {
        return Ok(None);
    }
    next.must_be(Symbol::Mark(Mark::Comma))?;
    let word = name(r)?;
    let parent = declared(bins, text, word)?;
    if is_leaf(bins, parent) {
        return Err(RuleFault::WrongKind(word.place).into());
    }
    expect(r, Symbol::Mark(Mark::Semicolon))?;
    Ok(Some(parent))
}

// A bin of the group with this number.
#[derive(Clone, Copy)]
pub struct BinRow {
    pub group: usize,
}

// (Bin | LeafBin) name number : string [, name] ;
impl Row for BinRow {
    ghost begins = { λ _ next. begins_bin next.symbol };

    ghost production = { λ row next text. bin_in text row.group (is_keyword LeafBin next) next.place };

    fn begins(&self, next: Found) -> bool {
        next.is_keyword(Keyword::Bin) || next.is_keyword(Keyword::LeafBin)
    }

    fn read<'a, 't>(&self, desk: &mut Desk<'a, 't>, next: Found) -> Result<(), LoadFault> {
        let t = &mut *desk.tables;
        room(&t.bins, next.place)?;
        let word = name(&mut desk.reader)?;
        let name = fresh(t.bins.as_slice(), desk.text, word)?;
        let number = bin_number(&mut desk.reader, t.bins.as_slice(), self.group)?;
        expect(&mut desk.reader, Symbol::Mark(Mark::Colon))?;
        string(&mut desk.reader)?;
        let parent = parent(&mut desk.reader, desk.text, t.bins.as_slice())?;
        t.bins.add(Bin {
            name,
            group: self.group,
            leaf: next.is_keyword(Keyword::LeafBin),
            number,
            parent,
        });
        Ok(())
    }
}
