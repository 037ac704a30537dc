// One token from where it begins: run to its end, then measure it.

ghost use Rattle.std.specs.Prelude.{◌≡◌, ℕ, ◌+◌, ◌<◌, ◌≤◌, length, IfOk, IfErr};
ghost use Rattle.text_bytes.specs.declared.kinds.ByteKind.TheVariants.{OfName, OfNumber, OfString};
ghost use Rattle.tokens.specs.Scanning.{part, run_end, word_to, number_to, decimal_to, digits_to, string_to, token_at};
ghost use Rattle.tokens.specs.declared.fault.TokenFault.TheVariants.{TooLong};
ghost use Rattle.tokens.specs.Answers.{Scans};

use crate::fault::TokenFault;
use crate::token::{Placed, Token};
use keywords::keyword_of;
use text_bytes::{ByteKind, begins_name, is_digit, mark_of, number_of, run_end};

// The most bytes of a name, a number or a decimal.
const LONGEST_WORD: usize = 32;
// The most bytes between the quotes of a string.
const LONGEST_STRING: usize = 64;

// The bytes of a name, a number or a decimal, unless they are too many.
fn measured<'a>(text: &'a [u8], at: usize, end: usize) -> Result<&'a [u8], TokenFault>
    requires { (at < end) × (end ≤ length text.now) }
    ensures bytes { IfOk result (λ bytes. (bytes.now ≡ part text.now at end) × (length bytes.now ≤ 32)) }
    ensures long { IfErr result (λ e. (e ≡ TooLong at) × (32 < length (part text.now at end))) }
{
    let bytes = &text[at..end];
    if bytes.len() > LONGEST_WORD {
        return Err(TokenFault::TooLong(at));
    }
    Ok(bytes)
}

fn word<'a>(text: &'a [u8], at: usize) -> Result<Placed<'a>, TokenFault>
    requires { at < length text.now }
    ensures { Scans (word_to text.now at (run_end text.now (at + 1) OfName)) text.now at result }
{
    let end = run_end(text, at + 1, ByteKind::OfName);
    let bytes = measured(text, at, end)?;
    let token = match keyword_of(bytes) {
        Some(k) => Token::Keyword(k),
        None => Token::Name(bytes),
    };
    Ok(Placed {
        token,
        place: at,
        end,
    })
}

fn number<'a>(text: &'a [u8], at: usize, end: usize) -> Result<Placed<'a>, TokenFault>
    requires { (at < end) × (end ≤ length text.now) }
    ensures { Scans (number_to text.now at end) text.now at result }
{
    let bytes = measured(text, at, end)?;
    let n = number_of(bytes).ok_or(TokenFault::TooLong(at))?;
    Ok(Placed {
        token: Token::Number(n),
        place: at,
        end,
    })
}

fn decimal<'a>(text: &'a [u8], at: usize, end: usize) -> Result<Placed<'a>, TokenFault>
    requires { (at < end) × (end ≤ length text.now) }
    ensures { Scans (decimal_to text.now at end) text.now at result }
{
    let bytes = measured(text, at, end)?;
    Ok(Placed {
        token: Token::Decimal(bytes),
        place: at,
        end,
    })
}

fn digits<'a>(text: &'a [u8], at: usize) -> Result<Placed<'a>, TokenFault>
    requires { at < length text.now }
    ensures { Scans (digits_to text.now at (run_end text.now (at + 1) OfNumber)) text.now at result }
{
    let whole = run_end(text, at + 1, ByteKind::OfNumber);
    match &text[whole..] {
        [b'.', d, ..] if is_digit(*d) => {
            decimal(text, at, run_end(text, whole + 1, ByteKind::OfNumber))
        }
        _ => number(text, at, whole),
    }
}

fn string<'a>(text: &'a [u8], at: usize) -> Result<Placed<'a>, TokenFault>
    requires { at < length text.now }
    ensures { Scans (string_to text.now at (run_end text.now (at + 1) OfString)) text.now at result }
{
    let end = run_end(text, at + 1, ByteKind::OfString);
    if end - (at + 1) > LONGEST_STRING {
        return Err(TokenFault::TooLong(at));
    }
    match text.get(end) {
        None | Some(b'\n') => Err(TokenFault::OpenString(at)),
        Some(b'"') => Ok(Placed {
            token: Token::Quoted(&text[at + 1..end]),
            place: at,
            end: end + 1,
        }),
        Some(_) => Err(TokenFault::ByteInString(end)),
    }
}

// The token that begins at an offset where no gap does.
pub fn token_at<'a>(text: &'a [u8], at: usize) -> Result<Placed<'a>, TokenFault>
    requires { at ≤ length text.now }
    ensures { Scans (token_at text.now at) text.now at result }
{
    let Some(&b) = text.get(at) else {
        return Ok(Placed {
            token: Token::End,
            place: at,
            end: at,
        });
    };
    if begins_name(b) {
        return word(text, at);
    }
    if is_digit(b) {
        return digits(text, at);
    }
    if b == b'"' {
        return string(text, at);
    }
    let m = mark_of(b).ok_or(TokenFault::StrayByte(at))?;
    Ok(Placed {
        token: Token::Mark(m),
        place: at,
        end: at + 1,
    })
}
