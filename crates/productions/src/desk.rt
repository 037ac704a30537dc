// Where a plan text is read into tables.

use plan::Tables;
use tokens::Reader;

// Names of rows are parts of the text, so it lies beside the tables. A function that only looks at the tables takes reader and
// tables as two arguments; its contract then need not say that they are unchanged.
#[derive(Drop)]
pub struct Desk<'a, 't> {
    pub reader: Reader<'a>,
    pub text: &'a [u8],
    pub tables: &'t mut Tables,
}
