// A group of bins.

ghost use Rattle.bins.specs.Bins.{begins_group, group_in};

use crate::bin::BinRow;
use grammar::{Found, name};
use keywords::Keyword;
use plan::Group;
use productions::{Desk, Row, braced, fresh, room};
use refusals::LoadFault;

#[derive(Clone, Copy)]
pub struct GroupRow;

// BinGroup name { bin+ }
impl Row for GroupRow {
    ghost begins = { λ _ next. begins_group next.symbol };

    ghost production = { λ _ next text. group_in text next.place };

    fn begins(&self, next: Found) -> bool {
        next.is_keyword(Keyword::BinGroup)
    }

    fn read<'a, 't>(&self, desk: &mut Desk<'a, 't>, next: Found) -> Result<(), LoadFault> {
        let t = &mut *desk.tables;
        let group = t.groups.len();
        room(&t.groups, next.place)?;
        let word = name(&mut desk.reader)?;
        let name = fresh(t.groups.as_slice(), desk.text, word)?;
        t.groups.add(Group { name });
        braced(&BinRow { group }, desk)
    }
}
