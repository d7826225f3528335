//! Strings.
ghost use Rattle.std.specs.Prelude.{◌≡◌, ◌≢◌, ◌≤◌, length, option_map, IfOk, IfSome};
ghost use Rattle.lua_tokens.specs.Tokens as spec;

use crate::words::byte;
use lua_tree::Text;
use std::alloc::Global;
use tis_base::NoMemory;

/// The byte that an escape stands for.
fn escape(b: u8) -> Option<u8>
    ensures value { result ≡ spec.escape b }
    ensures some { IfSome result (λ meant. b ≢ 0) }
{
    match b {
        b'n' => Some(b'\n'),
        b't' => Some(b'\t'),
        b'\\' | b'\'' | b'"' => Some(b),
        _ => None,
    }
}

/// What stands in a string, behind its quote, and how many bytes that takes up to and with the
/// closing quote.
pub fn quoted(alloc: Global, quote: u8, z: &[u8]) -> Result<Option<(Text, usize)>, NoMemory>
    ensures value { IfOk result (λ found. found ≡ spec.quoted quote z.now) }
    ensures within { IfOk result (λ found. IfSome found (λ s. s.1 ≤ length z.now)) }
{
    let mut text = Text::new(alloc);
    let mut at = 0;
    while at < z.len() {
        let b = z[at];
        if b == quote {
            return Ok(Some((text, at + 1)));
        }
        if b == b'\n' {
            return Ok(None);
        }
        if b == b'\\' {
            let Some(meant) = escape(byte(z, at + 1)) else {
                return Ok(None);
            };
            text.push(meant)?;
            at += 2;
        } else {
            text.push(b)?;
            at += 1;
        }
    }
    Ok(None)
}
