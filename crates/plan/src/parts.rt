// The bytes of a name.

ghost use Rattle.std.specs.Prelude.{◌≡◌};
ghost use Rattle.plan.specs.Rules.{spelt};

use crate::rows::Name;

// The part of the text that the name is, as far as the text goes.
pub fn part_of(text: &[u8], name: Name) -> &[u8]
    ensures { result.now ≡ spelt text.now name }
{
    let rest = text.get(name.place..).unwrap_or_default();
    rest.get(..name.len).unwrap_or(rest)
}
