// Readers of one token. Each is a match of its own: one reader that is given as a closure what to take has the same arms, and
// a contract about the closure, which each of its callers would have to prove.

ghost use Rattle.std.specs.Prelude.{◌≡◌};
ghost use Rattle.tokens.specs.Reading.{rest};
ghost use Rattle.grammar.specs.Readers.{Takes, word, start_at, name_in, decimal_in, string_in, number_in, symbol_in, expect_in, finish_in, value_start_in, setting_in, name_or_close_in};

use crate::fault::GrammarFault;
use crate::symbols::{Found, Symbol};
use text_bytes::Mark;
use tokens::{Placed, Reader, Token};

// Bytes of the text, and the place of the token that they are of.
#[derive(Clone, Copy)]
pub struct Word<'a> {
    pub bytes: &'a [u8],
    pub place: usize,
}

#[derive(Clone, Copy)]
pub struct Numeral {
    pub value: u32,
    pub place: usize,
}

// How a value begins: with its sign, or with its number.
#[derive(Clone, Copy)]
pub enum ValueStart {
    Minus(usize),
    Digits(Numeral),
}

// How a value begins with this token, if one does.
fn start_of(t: Placed<'_>) -> Option<ValueStart>
    ensures { result ≡ start_at t.entry }
{
    match t.token {
        Token::Mark(Mark::Minus) => Some(ValueStart::Minus(t.place)),
        Token::Number(value) => Some(ValueStart::Digits(Numeral {
            value,
            place: t.place,
        })),
        _ => None,
    }
}

pub fn name<'a>(r: &mut Reader<'a>) -> Result<Word<'a>, GrammarFault>
    ensures { Takes name_in word r.old r.new result }
{
    let t = r.next()?;
    match t.token {
        Token::Name(bytes) => Ok(Word {
            bytes,
            place: t.place,
        }),
        _ => Err(GrammarFault::NotAllowed(t.place)),
    }
}

pub fn decimal<'a>(r: &mut Reader<'a>) -> Result<Word<'a>, GrammarFault>
    ensures { Takes decimal_in word r.old r.new result }
{
    let t = r.next()?;
    match t.token {
        Token::Decimal(bytes) => Ok(Word {
            bytes,
            place: t.place,
        }),
        _ => Err(GrammarFault::NotAllowed(t.place)),
    }
}

pub fn string<'a>(r: &mut Reader<'a>) -> Result<Word<'a>, GrammarFault>
    ensures { Takes string_in word r.old r.new result }
{
    let t = r.next()?;
    match t.token {
        Token::Quoted(bytes) => Ok(Word {
            bytes,
            place: t.place,
        }),
        _ => Err(GrammarFault::NotAllowed(t.place)),
    }
}

pub fn number<'a>(r: &mut Reader<'a>) -> Result<Numeral, GrammarFault>
    ensures { Takes number_in (λ n. n) r.old r.new result }
{
    let t = r.next()?;
    match t.token {
        Token::Number(value) => Ok(Numeral {
            value,
            place: t.place,
        }),
        _ => Err(GrammarFault::NotAllowed(t.place)),
    }
}

// Any keyword or mark.
pub fn any_symbol<'a>(r: &mut Reader<'a>) -> Result<Found, GrammarFault>
    ensures { Takes symbol_in (λ f. f) r.old r.new result }
{
    let t = r.next()?;
    match t.token {
        Token::Keyword(k) => Ok(Found {
            symbol: Symbol::Keyword(k),
            place: t.place,
        }),
        Token::Mark(m) => Ok(Found {
            symbol: Symbol::Mark(m),
            place: t.place,
        }),
        _ => Err(GrammarFault::NotAllowed(t.place)),
    }
}

// This keyword or mark and no other.
pub fn expect<'a>(r: &mut Reader<'a>, wanted: Symbol) -> Result<(), GrammarFault>
    ensures { Takes (expect_in wanted) (λ u. u) r.old r.new result }
{
    any_symbol(r)?.must_be(wanted)
}

// The end of the text.
pub fn finish<'a>(r: &mut Reader<'a>) -> Result<(), GrammarFault>
    ensures { result ≡ finish_in (rest r.old) }
{
    let t = r.next()?;
    match t.token {
        Token::End => Ok(()),
        _ => Err(GrammarFault::NotAllowed(t.place)),
    }
}

// A minus or a number.
pub fn value_start<'a>(r: &mut Reader<'a>) -> Result<ValueStart, GrammarFault>
    ensures { Takes value_start_in (λ s. s) r.old r.new result }
{
    let t = r.next()?;
    start_of(t).ok_or(GrammarFault::NotAllowed(t.place))
}

// A name, a string, a minus or a number: the start of the value, where a value is set.
pub fn setter_value<'a>(r: &mut Reader<'a>) -> Result<Option<ValueStart>, GrammarFault>
    ensures { Takes setting_in (λ s. s) r.old r.new result }
{
    let t = r.next()?;
    match t.token {
        Token::Name(_) | Token::Quoted(_) => Ok(None),
        _ => Ok(Some(start_of(t).ok_or(GrammarFault::NotAllowed(t.place))?)),
    }
}

// Whether a name stands here, or a closing brace.
pub fn name_or_close<'a>(r: &mut Reader<'a>) -> Result<bool, GrammarFault>
    ensures { Takes name_or_close_in (λ b. b) r.old r.new result }
{
    let t = r.next()?;
    match t.token {
        Token::Name(_) => Ok(true),
        Token::Mark(Mark::CloseBrace) => Ok(false),
        _ => Err(GrammarFault::NotAllowed(t.place)),
    }
}
