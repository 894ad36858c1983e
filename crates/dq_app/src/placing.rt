//! Where in a text the institution begins for which it is refused.
ghost use Rattle.std.specs.Prelude.{◌≡◌, ◌≢◌, ◌≤◌, length, drop, false, true, Err, IfOk, IfSome};
ghost use Rattle.std.specs.Str.{IsUtf8};
ghost use Rattle.dq_config.specs.Conditions.{configuration};
ghost use Rattle.dq_config.specs.declared.fault.ConfigFault.TheVariants.{NoMemory};
ghost use Rattle.dq_app.specs.Places.{begins_at, line_at, IsPlace, IsLineOf};

use dq_config::{Config, ConfigFault};
use std::alloc::{AllocError, Global};

/// The words with which an institution begins.
const HEADING: &[u8] = b"[[institution]]";

/// Whether an institution begins at a place of a text.
fn begins_at(text: &[u8], at: usize) -> bool
    requires { at ≤ length text.now }
    ensures { result ≡ begins_at text.now at }
{
    text[at..].starts_with(HEADING)
}

/// Whether a text is refused by a fault.
fn is_refused_by(alloc: Global, text: &[u8], fault: ConfigFault) -> Result<bool, AllocError>
    ensures refused { IfOk result (λ is. is ≡ true → configuration text.now ≡ Err fault) }
    ensures unrefused { IfOk result (λ is. is ≡ false → fault ≢ NoMemory → IsUtf8 text.now
        → configuration text.now ≢ Err fault) }
{
    let Ok(text) = str::from_utf8(text) else {
        return Ok(false);
    };
    match Config::read(alloc, text) {
        Ok(_) => Ok(false),
        Err(ConfigFault::NoMemory) => Err(AllocError),
        Err(other) => Ok(other == fault),
    }
}

/// How many octets stand before the institution with which a text is refused, where that is known.
fn place_of(alloc: Global, text: &[u8], fault: ConfigFault) -> Result<Option<usize>, AllocError>
    ensures place { fault ≢ NoMemory → IfOk result (λ found. IfSome found (IsPlace text.now fault)) }
    ensures bounded { IfOk result (λ found. IfSome found (λ at. at ≤ length text.now)) }
{
    let mut open = None;
    for at in 0..text.len() {
        if begins_at(text, at) {
            if is_refused_by(alloc, &text[..at], fault)? {
                return Ok(open);
            }
            open = Some(at);
        }
    }
    if is_refused_by(alloc, text, fault)? {
        return Ok(open);
    }
    Ok(None)
}

/// The number of the line that an octet of a text is in.
fn line_at(text: &[u8], at: usize) -> usize
    requires { at ≤ length text.now }
    ensures { result ≡ line_at text.now at }
{
    text[..at].iter().filter(|octet| **octet == b'\n').count() + 1
}

/// The line at which the institution begins with which a text is refused by a fault; 0 where it is
/// not known.
pub fn line_of_fault(alloc: Global, text: &[u8], fault: ConfigFault) -> Result<usize, AllocError>
    ensures { fault ≢ NoMemory → IfOk result (IsLineOf text.now fault) }
{
    match place_of(alloc, text, fault)? {
        Some(at) => Ok(line_at(text, at)),
        None => Ok(0),
    }
}
