// The values of a clause.

ghost use Rattle.std.specs.Prelude.{◌≡◌, drop};
ghost use Rattle.plan.specs.Drafts.{drafted};
ghost use Rattle.plan.specs.Meaning.{code_of};
ghost use Rattle.refusals.specs.Steps.{Takes};
ghost use Rattle.productions.specs.Desks.{Produces, rows};
ghost use Rattle.clauses.specs.Parts.{among};
ghost use Rattle.clauses.specs.Clauses.{start_in, listed_in, values_in};

use grammar::{ValueStart, value_start};
use plan::{Tables, Value, rows_from};
use productions::{Desk, Entry, list, room};
use refusals::{LoadFault, RuleFault};
use text_bytes::Mark;
use tokens::Reader;
use values::value_from;

// The start of a value; where it is a minus, the value has room.
fn start<'a>(r: &mut Reader<'a>, t: &Tables) -> Result<ValueStart, LoadFault>
    ensures { Takes (start_in (drafted t.now)) (λ x. x) r.old r.new result }
{
    match value_start(r)? {
        ValueStart::Minus(place) if t.values.is_full() => {
            Err(RuleFault::TableFull(place).into())
        }
        start => Ok(start),
    }
}

// Whether the value is one of those from the row `first` on.
fn lists_value(values: &[Value], first: usize, value: Value) -> bool
    ensures { result ≡ among code_of value.code (drop first values.now) }
{
    rows_from(values, first).contains(&value)
}

// A value, listed once by the item whose values begin at the row `first`.
#[derive(Clone, Copy)]
struct ListedValue {
    first: usize,
}

impl Entry for ListedValue {
    ghost production = { λ entry _. listed_in entry.first };

    fn read<'a, 't>(&self, desk: &mut Desk<'a, 't>) -> Result<(), LoadFault> {
        let t = &mut *desk.tables;
        let start = start(&mut desk.reader, t)?;
        let v = value_from(&mut desk.reader, start)?;
        if lists_value(t.values.as_slice(), self.first, v.value) {
            return Err(RuleFault::Repeated(v.place).into());
        }
        room(&t.values, v.place)?;
        t.values.add(v.value);
        Ok(())
    }
}

// value (, value)* {
pub fn values<'a, 't>(desk: &mut Desk<'a, 't>, first: usize) -> Result<(), LoadFault>
    ensures made { Produces (λ _. values_in first) (λ _. rows desk.new) desk.old desk.new result }
    ensures kept { (rows desk.new).clauses ≡ (rows desk.old).clauses }
{
    list(&ListedValue { first }, desk, Mark::OpenBrace)
}
