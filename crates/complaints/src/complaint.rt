// The line that a person reads: LINE:COLUMN: refused NUMBER at PLACE by FINDER: what to mend.

ghost use Rattle.std.specs.Prelude.{◌≡◌};
ghost use Rattle.text_bytes.specs.Position.{line_at, column_at};
ghost use Rattle.refusals.specs.Told.{told};

use crate::rules::say_rule;
use grammar::GrammarFault;
use refusals::LoadFault;
use std::fmt;
use text_bytes::{Position, position_of};
use token_words::{Excerpt, TokenComplaint};

#[derive(Clone, Copy)]
pub struct Complaint<'a> {
    pub fault: LoadFault,
    pub position: Position,
    at: Excerpt<'a>,
}

impl<'a> Complaint<'a> {
    // What is wrong with the text, by the fault for which it was refused.
    pub fn new(text: &'a [u8], fault: LoadFault) -> Complaint<'a>
        ensures fault { result.fault ≡ fault }
        ensures line { result.position.line ≡ line_at text.now (told fault).place }
        ensures column { result.position.column ≡ column_at text.now (told fault).place }
    {
        let place = fault.place();
        Complaint {
            fault,
            position: position_of(text, place),
            at: Excerpt::at(text, place),
        }
    }
}

fn say_not_allowed<W: fmt::Write>(at: Excerpt<'_>, f: &mut fmt::Formatter<W>) -> fmt::Result {
    match at {
        Excerpt::End => {
            write!(
                f,
                "the text ends too early; write what is missing, up to FlowDefs and its closing brace"
            )
        }
        _ => {
            write!(
                f,
                "{at} may not stand here; look for a word or mark that is missing, misspelt or too many"
            )
        }
    }
}

impl fmt::Display for Complaint<'_> {
    fn fmt<W: fmt::Write>(&self, f: &mut fmt::Formatter<W>) -> fmt::Result {
        let Complaint {
            fault,
            position,
            at,
        } = *self;
        write!(f, "{position}: {fault}: ")?;
        match fault {
            LoadFault::NoBytes => write!(f, "the file has no bytes; write a plan into it"),
            LoadFault::TooManyBytes => write!(f, "the file has more than 65536 bytes; shorten it"),
            LoadFault::Grammar(GrammarFault::Token(fault)) => write!(
                f,
                "{}",
                TokenComplaint { fault, at }
            ),
            LoadFault::Grammar(GrammarFault::NotAllowed(_)) => say_not_allowed(at, f),
            LoadFault::Rule(rule) => say_rule(rule, at, f),
        }
    }
}
