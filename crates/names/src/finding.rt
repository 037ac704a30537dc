// The row that a word names.

ghost use Rattle.std.specs.Prelude.{◌≡◌};
ghost use Rattle.plan.specs.Rules.{spelt};
ghost use Rattle.names.specs.Names.{same_name, found};

use crate::named::Named;
use plan::part_of;

// Whether the row has this word as its name. When two names are equal is decided here and nowhere else.
fn has_name<T: Named>(row: &T, text: &[u8], word: &[u8]) -> bool
    ensures { result ≡ same_name (spelt text.now (T.named row.now)) word.now }
{
    part_of(text, row.name()) == word
}

// The number of the first of the rows that has this word as its name.
pub fn find<T: Named>(rows: &[T], text: &[u8], word: &[u8]) -> Option<usize>
    ensures { result ≡ found T.named text.now rows.now word.now }
{
    rows.iter().position(|row| has_name(row, text, word))
}
