// Broken plan rules in words.

use keywords::{Keyword, keyword_of};
use refusals::RuleFault;
use std::fmt;
use token_words::Excerpt;

// What there is too much of, by the word at which its table was full.
fn full_at(word: &str) -> &'static str {
    match keyword_of(word.as_bytes()) {
        Some(Keyword::BinGroup) => "a plan has at most 16 groups; remove one",
        Some(Keyword::Bin | Keyword::LeafBin) => "a plan has at most 128 bins; remove one",
        Some(Keyword::Test) => "a plan has at most 128 tests; remove one",
        Some(Keyword::Flow) => "a plan has at most 64 flows; remove one",
        Some(Keyword::FlowItem) => "a plan has at most 512 items; remove one",
        Some(Keyword::Result) => "a plan has at most 1024 clauses; remove one",
        _ => "a plan has at most 32 counters, and its clauses name at most 2048 in all; remove one",
    }
}

fn full(at: Excerpt<'_>) -> &'static str {
    match at {
        Excerpt::Word(word) => full_at(word),
        _ => "the clauses of a plan list at most 2048 values in all; remove one",
    }
}

// What is said before the word at fault and behind it; a full table is told without the word.
fn around(fault: RuleFault) -> Option<(&'static str, &'static str)> {
    let said = match fault {
        RuleFault::DeclaredBefore(_) => (
            "",
            "was declared before; give one of the two another name",
        ),
        RuleFault::NotDeclared(_) => (
            "",
            "is not declared, or not yet; mend its spelling, or declare it earlier",
        ),
        RuleFault::WrongKind(_) => (
            "",
            "is declared as something else; a parent is declared with Bin, SetBin names a LeafBin of the group before it, MainFlow names a flow",
        ),
        RuleFault::OutOfRange(_) => (
            "",
            "is out of range; a bin number is at most 65535, a value lies in -32768 to 32767",
        ),
        RuleFault::Repeated(_) => (
            "",
            "stands there already; a group has each bin number once, an item lists each value once, a clause names each counter once",
        ),
        RuleFault::TableFull(_) => return None,
        RuleFault::ReturnNotListed(_) => (
            "the item ",
            "does not list every value that its flow returns; add a Result clause for each",
        ),
        RuleFault::TooDeep(_) => (
            "running ",
            "here nests flows more than 8 deep; run its items without it",
        ),
        RuleFault::NoSortBin(_) => (
            "the leaf bin ",
            "has no bin of the sort group at or above it; give it such a parent",
        ),
    };
    Some(said)
}

pub fn say_rule<W: fmt::Write>(
    fault: RuleFault,
    at: Excerpt<'_>,
    f: &mut fmt::Formatter<W>,
) -> fmt::Result {
    let Some((before, behind)) = around(fault) else {
        return f.write_str(full(at));
    };
    match (fault, at) {
        (RuleFault::OutOfRange(_), Excerpt::Quoted(_)) => {
            write!(f, "a PassFail string is \"Pass\" or \"Fail\", and not {at}")
        }
        (RuleFault::OutOfRange(_), Excerpt::Digits(digits)) if digits.contains('.') => {
            write!(f, "this version is {at}; write 1.0")
        }
        _ => write!(f, "{before}{at} {behind}"),
    }
}
