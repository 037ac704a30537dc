//! Values of a plan text: a number with or without a minus, from -32768 to 32767.

#![tactic(auto)]

ghost use Rattle.std.specs.Prelude.{◌≡◌};
ghost use Rattle.refusals.specs.Steps.{Takes, MayTake};
ghost use Rattle.plan.specs.Values.{value_of};
ghost use Rattle.values.specs.Values.{placed_value, value_from, value_in};

use grammar::{ValueStart, number, value_start};
use plan::Value;
use refusals::{LoadFault, RuleFault};
use tokens::Reader;

// A value that was read, and the place of its number.
#[derive(Clone, Copy)]
pub struct ReadValue {
    pub value: Value,
    pub place: usize,
}

// The value of a number that stands at this place.
fn in_range(n: i64, place: usize) -> Result<ReadValue, LoadFault>
    ensures { result ≡ placed_value place (value_of n) }
{
    let value = Value::try_from(n).map_err(|_| RuleFault::OutOfRange(place))?;
    Ok(ReadValue { value, place })
}

// The value that has begun so.
pub fn value_from<'a>(r: &mut Reader<'a>, start: ValueStart) -> Result<ReadValue, LoadFault>
    ensures { MayTake (value_from start) (λ x. x) r.old r.new result }
{
    match start {
        ValueStart::Minus(_) => {
            let n = number(r)?;
            in_range(-i64::from(n.value), n.place)
        }
        ValueStart::Digits(n) => in_range(i64::from(n.value), n.place),
    }
}

// [-] number
pub fn value<'a>(r: &mut Reader<'a>) -> Result<ReadValue, LoadFault>
    ensures { Takes value_in (λ x. x) r.old r.new result }
{
    let start = value_start(r)?;
    value_from(r, start)
}
