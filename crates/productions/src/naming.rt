// Names that are declared, and names that were declared before.

ghost use Rattle.std.specs.Prelude.{◌≡◌};
ghost use Rattle.grammar.specs.Readers.{word};
ghost use Rattle.plan.specs.Drafts.{drafted};
ghost use Rattle.productions.specs.Naming.{name_at, fresh_in, declared_in, runnable_in, fresh_runnable_in};

use grammar::Word;
use names::{Named, find};
use plan::{Flow, Name, Tables, Test};
use refusals::RuleFault;

// A word as the name of a row: its place and its length.
pub fn name_of(w: Word<'_>) -> Name
    ensures { result ≡ name_at (word w.entry) }
{
    Name {
        place: w.place,
        len: w.bytes.len(),
    }
}

// The word as the name of a new row; none of the rows may have it.
pub fn fresh<T: Named>(rows: &[T], text: &[u8], w: Word<'_>) -> Result<Name, RuleFault>
    ensures { result ≡ fresh_in T.named text.now rows.now (word w.entry) }
{
    if find(rows, text, w.bytes).is_some() {
        return Err(RuleFault::DeclaredBefore(w.place));
    }
    Ok(name_of(w))
}

// The number of the row that the word names.
pub fn declared<T: Named>(rows: &[T], text: &[u8], w: Word<'_>) -> Result<usize, RuleFault>
    ensures { result ≡ declared_in T.named text.now rows.now (word w.entry) }
{
    find(rows, text, w.bytes).ok_or(RuleFault::NotDeclared(w.place))
}

// Whether a test or a flow has this name; they share one set of names.
fn is_runnable(tests: &[Test], flows: &[Flow], text: &[u8], name: &[u8]) -> bool
    ensures { result ≡ runnable_in text.now tests.now flows.now name.now }
{
    find(tests, text, name).is_some() || find(flows, text, name).is_some()
}

// The word as the name of a new test or flow; no test and no flow may have it.
pub fn fresh_runnable(t: &Tables, text: &[u8], w: Word<'_>) -> Result<Name, RuleFault>
    ensures { result ≡ fresh_runnable_in text.now (drafted t.now) (word w.entry) }
{
    if is_runnable(t.tests.as_slice(), t.flows.as_slice(), text, w.bytes) {
        Err(RuleFault::DeclaredBefore(w.place))
    } else {
        Ok(name_of(w))
    }
}
