// Result values, from the signed number and back, and among others.

ghost use Rattle.std.specs.Prelude.{◌≡◌, map, drop};
ghost use Rattle.std.specs.Result.{result_ok};
ghost use Rattle.plan.specs.Meaning.{code_of, lists};
ghost use Rattle.plan.specs.Values.{value_of, signed_of};

use crate::rows::Value;

// A number that no value stands for.
#[derive(Clone, Copy, Debug, PartialEq, Eq)]
pub struct OutOfRange;

// The value of a number from -32768 to 32767; no other number is one.
impl TryFrom<i64> for Value {
    type Error = OutOfRange;

    ghost try_from_gives = { λ v r. result_ok r ≡ value_of v };

    fn try_from(v: i64) -> Result<Value, OutOfRange> {
        match v {
            -32768..=32767 => Ok(Value {
                code: (v + 32768) as u16,
            }),
            _ => Err(OutOfRange),
        }
    }
}

impl From<Value> for i32 {
    ghost from_gives = { λ v r. r ≡ signed_of v };

    fn from(v: Value) -> i32 {
        i32::from(v.code) - 32768
    }
}

// Whether the value is one of these.
pub fn lists(values: &[Value], value: Value) -> bool
    ensures { result ≡ lists value.code (map code_of values.now) }
{
    values.contains(&value)
}

// The rows from one on.
pub fn rows_from<T>(rows: &[T], from: usize) -> &[T]
    ensures { result.now ≡ drop from rows.now }
{
    rows.get(from..).unwrap_or_default()
}
