//! The keys of institutions and of the operator.
ghost use Rattle.std.specs.Prelude.{◌≡◌, ◌++◌, codes, Ok, IsTrue, IfOk, IfSome, option_copied};
ghost use Rattle.hex.specs.Hex.{decode_of};
ghost use Rattle.std.specs.Str.{bytes_eq};
ghost use Rattle.std.specs.List.{list_all, list_any};
ghost use Rattle.sha2.specs.Sha256.{sha256};
ghost use Rattle.dq_web.specs.KeyFiles.{is_owner, right_word, with_right, may_have, is_label_octet, is_label, with_label, may_be_label, SpellsKey, is_key_line, key_lines, AreSpelled, is_right, may_do, opens, permits, entry_for, IsEntryFor};

use crate::parsed_request::begins;
use crate::refusal::Refusal;
use dq_config::is_name;
use dq_list::Listed;
use hex::FromHexError;
use sha2::{Digest, Sha256};
use std::alloc::{AllocError, Global};
use thiserror::Error;

/// The octets of a digest.
const DIGEST: usize = 32;

/// The most octets of a label.
const LABEL_MOST: usize = 32;

/// The name of the operator's keys.
pub const OPERATOR: &[u8] = b"*";

/// What a key may do: the first two with an institution, the others with the server.
#[derive(Clone, Copy, Debug, PartialEq, Eq)]
pub enum Right {
    /// Search what the institution keeps, and count it.
    Read,
    /// Schedule and withdraw entries of its worklist.
    Order,
    Metrics,
    Backup,
}

/// A key's line: whose key it is (an institution's, by its name, or the operator's, by an asterisk),
/// the right that it has (all that the name may do, if there is none), its SHA-256, and its label in the
/// log, which is empty if it has none.
#[derive(Debug, Drop)]
pub struct KeyEntry {
    pub name: Listed<u8>,
    pub right: Option<Right>,
    pub digest: Listed<u8>,
    pub label: Listed<u8>,
}

/// The keys of a file.
#[derive(Debug, Drop)]
pub struct Keys {
    pub entries: Listed<KeyEntry>,
}

/// Why a text tells no keys.
#[derive(Clone, Copy, Debug, PartialEq, Eq, Error)]
pub enum KeysFault {
    /// The first bad line, counted from 1, or 0 where the text has no key.
    #[error("key file line {0}")]
    Line(u64),
    #[error("memory ran out")]
    NoMemory,
}

impl From<AllocError> for KeysFault {
    fn from(_error: AllocError) -> KeysFault {
        KeysFault::NoMemory
    }
}

/// Returns the text before the first space, and the text after it.
pub(crate) fn at_space(text: &str) -> Option<(&str, &str)>
    ensures { IfSome result (λ parts. text.now ≡ parts.0.now ++ codes " " ++ parts.1.now) }
{
    match text.split_once(' ') {
        Some(parts) => Some(parts),
        None => None,
    }
}

impl Right {
    /// The right that a word names.
    fn of(word: &str) -> Option<Right>
        ensures { IfSome result (λ right. word.now ≡ right_word right) }
    {
        match word {
            "read" => Some(Right::Read),
            "order" => Some(Right::Order),
            "metrics" => Some(Right::Metrics),
            "backup" => Some(Right::Backup),
            _ => None,
        }
    }

    /// Whether it is this one.
    fn is_same(self, other: Right) -> bool
        ensures { result ≡ is_right self other }
    {
        match (self, other) {
            (Right::Read, Right::Read) => true,
            (Right::Order, Right::Order) => true,
            (Right::Metrics, Right::Metrics) => true,
            (Right::Backup, Right::Backup) => true,
            _ => false,
        }
    }
}

/// The right at the front of a text, if one is given, and the text behind it.
fn right_in(text: &str) -> (Option<Right>, &str)
    ensures { text.now ≡ with_right result.0 result.1.now }
{
    let Some((word, rest)) = at_space(text) else {
        return (None, text);
    };
    match Right::of(word) {
        Some(right) => (Some(right), rest),
        None => (None, text),
    }
}

fn is_label_octet(octet: u8) -> bool
    ensures { result ≡ is_label_octet octet }
{
    octet.is_ascii_alphanumeric() || octet == b'-' || octet == b'_' || octet == b'.'
}

fn are_label_octets(octets: &[u8]) -> bool
    ensures { result ≡ list_all is_label_octet octets.now }
{
    octets.iter().all(|octet| is_label_octet(*octet))
}

/// Whether octets are a label: 1 to 32 letters, digits, hyphens, underscores and full stops.
fn is_label(octets: &[u8]) -> bool
    ensures { result ≡ is_label octets.now }
{
    !octets.is_empty() && octets.len() <= LABEL_MOST && are_label_octets(octets)
}

/// The text before a label, and the label, which is empty if there is none.
fn label_in(text: &str) -> Option<(&str, &str)>
    ensures { IfSome result (λ parts. (text.now ≡ with_label parts.0.now parts.1.now)
        × IsTrue (may_be_label parts.1.now)) }
{
    match at_space(text) {
        None => Some((text, "")),
        Some((before, label)) if is_label(label.as_bytes()) => Some((before, label)),
        Some(_) => None,
    }
}

/// The octets of a digest in hexadecimal.
fn digest_of(alloc: Global, text: &str) -> Result<Option<Listed<u8>>, AllocError>
    ensures { IfOk result (λ found. IfSome found (λ digest. decode_of text.now ≡ Ok digest)) }
{
    match hex::decode(alloc, text) {
        Ok(octets) if octets.len() == DIGEST => Ok(Some(Listed::from_inner(octets))),
        Err(FromHexError::OutOfMemory) => Err(AllocError),
        _ => Ok(None),
    }
}

/// Whether a text names an institution, or is the operator's asterisk.
fn is_owner(name: &[u8]) -> bool
    ensures { result ≡ is_owner name.now }
{
    is_name(name) || name == OPERATOR
}

/// Whether keys of a name may have a right.
fn may_have(name: &[u8], right: Option<Right>) -> bool
    ensures { result ≡ may_have name.now right }
{
    match right {
        None => is_owner(name),
        Some(Right::Read | Right::Order) => is_name(name),
        Some(Right::Metrics | Right::Backup) => name == OPERATOR,
    }
}

/// The key that a line tells.
fn key_of(alloc: Global, line: &str) -> Result<Option<KeyEntry>, AllocError>
    ensures { IfOk result (λ found. IfSome found (SpellsKey line.now)) }
{
    let Some((name, rest)) = at_space(line) else {
        return Ok(None);
    };
    let (right, rest) = right_in(rest);
    if !may_have(name.as_bytes(), right) {
        return Ok(None);
    }
    let Some((text, label)) = label_in(rest) else {
        return Ok(None);
    };
    match digest_of(alloc, text)? {
        Some(digest) => Ok(Some(KeyEntry {
            name: Listed::copy_of(alloc, name.as_bytes())?,
            right,
            digest,
            label: Listed::copy_of(alloc, label.as_bytes())?,
        })),
        None => Ok(None),
    }
}

/// Whether a line is that of a key: it is not empty, and no comment.
fn is_key_line(line: &str) -> bool
    ensures { result ≡ is_key_line line.now }
{
    !line.is_empty() && !begins(line, "#")
}

/// Whether two digests are the same. All of their octets are looked at, whatever the first ones are.
fn is_same(one: &[u8], other: &[u8]) -> bool
    ensures { result ≡ bytes_eq one.now other.now }
{
    if one.len() != other.len() {
        return false;
    }
    let mut is_same = true;
    for (at, octet) in one.iter().enumerate() {
        is_same &= *octet == other[at];
    }
    is_same
}

impl KeyEntry {
    /// Whether it is of this name and digest.
    fn opens(&self, name: &[u8], digest: &[u8]) -> bool
        ensures { result ≡ opens name.now digest.now self.now }
    {
        is_same(self.digest.as_slice(), digest) && self.name.as_slice() == name
    }

    /// Whether it has this right.
    fn may(&self, right: Right) -> bool
        ensures { result ≡ may_do right self.now.right }
    {
        match self.right {
            None => true,
            Some(own) => own.is_same(right),
        }
    }

    /// Whether it is of this name and digest, and has this right.
    fn permits(&self, name: &[u8], right: Right, digest: &[u8]) -> bool
        ensures { result ≡ permits name.now right digest.now self.now }
    {
        self.opens(name, digest) && self.may(right)
    }
}

/// The first entry that permits it.
fn entry_for<'a>(
    entries: &'a [KeyEntry],
    name: &[u8],
    right: Right,
    digest: &[u8],
) -> Option<&'a KeyEntry>
    ensures { option_copied result ≡ entry_for entries.now name.now right digest.now }
{
    entries
        .iter()
        .find(|entry| entry.permits(name, right, digest))
}

/// Whether an entry is of this name and digest, whatever right it has.
fn is_known(entries: &[KeyEntry], name: &[u8], digest: &[u8]) -> bool
    ensures { result ≡ list_any (opens name.now digest.now) entries.now }
{
    entries.iter().any(|entry| entry.opens(name, digest))
}

impl Keys {
    /// The keys that the lines of a text tell, in their order: a name, a right if the key has not all of
    /// the name's, the SHA-256 of the key in hexadecimal, and a label if it has one, with a space between
    /// them. An empty line, or one that begins with a number sign, is skipped. A text without a key is
    /// refused as line 0.
    pub fn read(alloc: Global, text: &str) -> Result<Keys, KeysFault>
        ensures { IfOk result (λ keys. AreSpelled (key_lines text.now) keys.entries) }
    {
        let mut entries = Listed::empty(alloc);
        let mut number: u64 = 0;
        for line in text.lines() {
            number = number.saturating_add(1);
            if !is_key_line(line) {
                continue;
            }
            let Some(entry) = key_of(alloc, line)? else {
                return Err(KeysFault::Line(number));
            };
            entries.push(entry)?;
        }
        if entries.is_empty() {
            return Err(KeysFault::Line(0));
        }
        Ok(Keys { entries })
    }

    /// The first entry by which a key opens a name with a right. A key of another name is refused as
    /// `Key`, and one of this name without the right as `Right`.
    pub fn entry_for(&self, name: &[u8], right: Right, key: &[u8]) -> Result<&KeyEntry, Refusal>
        ensures { IsEntryFor self.now.entries name.now right (sha256 key.now) result }
    {
        let digest = Sha256::digest(key);
        let entries = self.entries.as_slice();
        match entry_for(entries, name, right, &digest) {
            Some(entry) => Ok(entry),
            None if is_known(entries, name, &digest) => Err(Refusal::Right),
            None => Err(Refusal::Key),
        }
    }
}
