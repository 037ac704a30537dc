// Lists: entries with commas between them, and the mark that ends the list.

ghost use Rattle.std.specs.Prelude.{◌≡◌, ℕ, List};
ghost use Rattle.tokens.specs.Terminals.{Tokens};
ghost use Rattle.grammar.specs.Readers.{Takes};
ghost use Rattle.plan.specs.Drafts.{Draft};
ghost use Rattle.refusals.specs.Shapes.{another_in};
ghost use Rattle.refusals.specs.Steps.{Loaded};
ghost use Rattle.productions.specs.Desks.{Produces, rows};
ghost use Rattle.productions.specs.Following.{list_in};

use crate::desk::Desk;
use grammar::{GrammarFault, any_symbol};
use refusals::LoadFault;
use text_bytes::Mark;
use tokens::Reader;

// How an entry of a list is read.
pub trait Entry {
    ghost production: { Self → List ℕ → Draft → Tokens → Loaded Draft };

    // No entry touches the clauses, refused or not.
    fn read<'a, 't>(&self, desk: &mut Desk<'a, 't>) -> Result<(), LoadFault>
        ensures made { Produces (production self.now) (λ _. rows desk.new) desk.old desk.new result }
        ensures kept { (rows desk.new).clauses ≡ (rows desk.old).clauses };
}

// Whether a comma stands here, so that another entry follows, or the mark that ends the list, so that none does.
pub fn another<'a>(r: &mut Reader<'a>, last: Mark) -> Result<bool, GrammarFault>
    ensures { Takes (another_in last) (λ more. more) r.old r.new result }
{
    let next = any_symbol(r)?;
    if next.is_mark(Mark::Comma) {
        return Ok(true);
    }
    if next.is_mark(last) {
        return Ok(false);
    }
    Err(GrammarFault::NotAllowed(next.place))
}

// entry (, entry)* last
pub fn list<'a, 't, E: Entry>(
    entry: &E,
    desk: &mut Desk<'a, 't>,
    last: Mark,
) -> Result<(), LoadFault>
    ensures made { Produces (list_in last (E.production entry.now)) (λ _. rows desk.new) desk.old desk.new result }
    ensures kept { (rows desk.new).clauses ≡ (rows desk.old).clauses }
{
    loop {
        entry.read(desk)?;
        if !another(&mut desk.reader, last)? {
            return Ok(());
        }
    }
}
