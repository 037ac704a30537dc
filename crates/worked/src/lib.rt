//! Cases of the sample plan that are proved, as one list.

#![tactic(auto)]

ghost use Rattle.std.specs.Prelude.{◌≡◌, length};
ghost use Rattle.worked.specs.Worked.{cases, EachHolds};

// How many cases there are; every one of them holds.
pub fn marked_cases_hold() -> usize
    ensures counted { result ≡ length cases }
    ensures hold { EachHolds cases }
{
    3
}
