// `<N:body>` written out.

use std::alloc::AllocError;

// The body once, with the number of the turn for each `%`.
fn push_turn(out: &mut String, body: &str, turn: u32) -> Result<(), AllocError> {
    let mut parts = body.split('%');
    out.push_str(parts.next().unwrap_or(""))?;
    for part in parts {
        write!(out, "{turn}{part}")?;
    }
    Ok(())
}

// N:body, written out; where it is none, it stays as it is.
fn push_repeated(out: &mut String, repeated: &str) -> Result<(), AllocError> {
    if let Some((count, body)) = repeated.split_once(':')
        && let Ok(turns) = count.parse::<u32>()
    {
        for turn in 0..turns {
            push_turn(out, body, turn)?;
        }
        return Ok(());
    }
    out.push_str(repeated)
}

pub fn push_expanded(out: &mut String, text: &str) -> Result<(), AllocError> {
    let mut parts = text.split('<');
    out.push_str(parts.next().unwrap_or(""))?;
    for part in parts {
        let (repeated, behind) = part.split_once('>').unwrap_or(("", part));
        push_repeated(out, repeated)?;
        out.push_str(behind)?;
    }
    Ok(())
}
