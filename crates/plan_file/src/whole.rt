// A plan text from its first token to its last.

ghost use Rattle.std.specs.Prelude.{◌≡◌, length};
ghost use Rattle.tokens.specs.Scanning.{tokens_from};
ghost use Rattle.plan.specs.Drafts.{drafted, blank};
ghost use Rattle.productions.specs.Desks.{Same, text, rows, unread};
ghost use Rattle.plan_file.specs.File.{file_in, filed, Kept, PlaceWithin};

use crate::header::header;
use crate::sections::sections;
use bins::bins;
use grammar::finish;
use plan::{Name, Tables};
use productions::Desk;
use refusals::LoadFault;
use tokens::Reader;

// Version decimal ; TestPlan name ; bins [counters] test* flow+ FlowDefs { MainFlow = name ; }, and the end: the plan's name.
#[tactic(auto, unfolding(crate::specs::File::file_in))]
pub fn file<'a, 't>(desk: &mut Desk<'a, 't>) -> Result<Name, LoadFault>
    ensures told { filed result (rows desk.new) ≡ file_in (text desk.old) (rows desk.old) (unread desk.old) }
    ensures same { Same desk.old desk.new }
{
    let title = header(&mut desk.reader)?;
    bins(desk)?;
    sections(desk)?;
    finish(&mut desk.reader)?;
    Ok(title)
}

// The whole of a text into the tables, which are emptied first. Tables of an accepted text keep every rule of a plan; the
// place told of a refused one lies within the text.
pub fn read_text(text: &[u8], t: &mut Tables) -> Result<Name, LoadFault>
    ensures told { filed result (drafted t.new) ≡ file_in text.now blank (tokens_from text.now 0) }
    ensures kept { Kept text.now result (drafted t.new) }
    ensures near { PlaceWithin (length text.now) result }
{
    t.clear();
    let mut desk = Desk {
        reader: Reader::new(text),
        text,
        tables: t,
    };
    file(&mut desk)
}
