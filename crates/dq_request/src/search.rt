//! Searches of what an institution keeps: by keys, and a page at a time.
ghost use Rattle.std.specs.Prelude.{◌≡◌, ◌≢◌, ◌<◌, ◌≤◌, ◌^◌, ℕ, List, [], length, option_copied, find, Some, None, IfOk, IfSome, MatchOption, MatchBool};
ghost use Rattle.percent_encoding.specs.Percent.{percent_decode};
ghost use Rattle.dq_request.specs.declared.search.Subject.TheVariants.{Steps};
ghost use Rattle.dq_request.specs.Searches.{IsNumber, SpellsShort, SpellsOctets, uid_octet, SpellsUids, SpellsText, has_spellings, GivesValue, GivesKey, HasEquals, name_in, text_in, pages_by_key, TakesLimit, TakesOffset, TakesAfter, TakesKey, TakesNamed, TakesWord, RefusesWord, GivesOctets, value_most, identifier_of};

use crate::identifier::{asked_identifier, worklist_identifier};
use crate::spelled_values::in_spellings;
use dq_dataset::DataSet;
use dq_json::tag_named;
use dq_list::Listed;
use dq_match::ShownPage;
use dq_vr::{Tag, Vr, lookup};
use percent_encoding::percent_decode;
use std::alloc::{AllocError, Global};

/// The most octets of a value.
const VALUE_MOST: usize = 65_534;

/// The subject of a search.
#[derive(Clone, Copy, Debug, PartialEq, Eq)]
pub enum Subject {
    Studies,
    Series,
    /// Images of one series.
    Images,
    /// Images of all series of a study.
    StudyImages,
    Worklist,
    Steps,
}

impl Subject {
    /// Whether a page of such a search may begin after a unique key.
    pub fn pages_by_key(self) -> bool
        ensures { result ≡ pages_by_key self }
    {
        matches!(self, Subject::Studies | Subject::Series | Subject::Images)
    }
}

/// An attribute, and the value that it is to match, before that is padded.
#[derive(Debug, Drop)]
pub struct Key {
    pub tag: Tag,
    pub value: Listed<u8>,
}

/// A search of what an institution keeps: the keys that it is to match, and the page that is shown.
#[derive(Debug, Drop)]
pub struct Search {
    pub subject: Subject,
    pub institution: Listed<u8>,
    pub keys: Listed<Key>,
    /// The unique key after which the rows of its pages begin; with none they begin with the first.
    pub after: Option<Listed<u8>>,
    pub page: ShownPage,
}

/// The name and the text of a word, before and behind the first equals sign.
fn halves_of(word: &str) -> Option<(&str, &str)>
    ensures { MatchOption result (HasEquals word.now → ⊥) (λ halves. HasEquals word.now
        × (halves.0.now ≡ name_in word.now) × (halves.1.now ≡ text_in word.now)) }
{
    match word.split_once('=') {
        Some(halves) => Some(halves),
        None => None,
    }
}

/// The octets of an unsigned short that a text spells.
fn short_of(alloc: Global, text: &str) -> Result<Option<Listed<u8>>, AllocError>
    ensures { IfOk result (λ value. MatchOption value
        ((octets : List ℕ) → SpellsShort text.now octets → ⊥) (SpellsShort text.now)) }
{
    let Ok(number) = text.parse::<u16>() else {
        return Ok(None);
    };
    Ok(Some(Listed::copy_of(alloc, &number.to_le_bytes())?))
}

/// The octets that a text spells, %XX for one of them.
fn octets_of(alloc: Global, text: &str) -> Result<Option<Listed<u8>>, AllocError>
    ensures { IfOk result (λ value. MatchOption value (value_most < length (percent_decode text.now))
        (SpellsOctets text.now)) }
{
    let mut octets = Vec::new(alloc);
    percent_decode(text.as_bytes()).append_to(&mut octets)?;
    if octets.len() > VALUE_MOST {
        return Ok(None);
    }
    Ok(Some(Listed::from_inner(octets)))
}

/// Turns a comma in a list of UIDs (PS3.18 section 8.3.4.1) into the separator of values (PS3.5
/// section 6.4).
fn uid_octet(octet: u8) -> u8
    ensures { result ≡ uid_octet octet }
{
    if octet == b',' { b'\\' } else { octet }
}

/// The UIDs that a text spells, with a comma or a backslash between two.
fn uids_of(alloc: Global, text: &str) -> Result<Option<Listed<u8>>, AllocError>
    ensures { IfOk result (λ value. MatchOption value (value_most < length (percent_decode text.now))
        (SpellsUids text.now)) }
{
    let Some(octets) = octets_of(alloc, text)? else {
        return Ok(None);
    };
    let mut uids = Listed::empty(alloc);
    for octet in octets.as_slice() {
        uids.push(uid_octet(*octet))?;
    }
    Ok(Some(uids))
}

fn has_spellings(vr: Vr) -> bool
    ensures { result ≡ has_spellings vr }
{
    matches!(vr, Vr::LO | Vr::PN | Vr::SH | Vr::UC)
}

/// The values that a text gives an attribute whose records may be in several character sets, each in each of
/// its spellings.
fn text_of(alloc: Global, text: &str) -> Result<Option<Listed<u8>>, AllocError>
    ensures { IfOk result (λ value. MatchOption value (value_most < length (percent_decode text.now))
        (SpellsText text.now)) }
{
    let Some(octets) = octets_of(alloc, text)? else {
        return Ok(None);
    };
    Ok(Some(in_spellings(alloc, octets.as_slice())?))
}

/// The value that a text gives an attribute of a VR. Of others than text, UIDs and unsigned shorts only the
/// empty one can be given.
fn value_given(alloc: Global, vr: Vr, text: &str) -> Result<Option<Listed<u8>>, AllocError>
    ensures { IfOk result (λ value. MatchOption value
        ((octets : List ℕ) → GivesValue vr text.now octets → ⊥) (GivesValue vr text.now)) }
{
    if vr == Vr::US && !text.is_empty() {
        return short_of(alloc, text);
    }
    if vr == Vr::UI {
        return uids_of(alloc, text);
    }
    if has_spellings(vr) {
        return text_of(alloc, text);
    }
    if !vr.is_text() && !text.is_empty() {
        return Ok(None);
    }
    octets_of(alloc, text)
}

/// The key that a name and a text give.
fn key_given(alloc: Global, name: &str, text: &str) -> Result<Option<Key>, AllocError>
    ensures { IfOk result (λ key. MatchOption key
        ((it : Key) → GivesKey name.now text.now it → ⊥) (GivesKey name.now text.now)) }
{
    let Some(tag) = tag_named(name) else {
        return Ok(None);
    };
    let Some(vr) = lookup(tag) else {
        return Ok(None);
    };
    match value_given(alloc, vr, text)? {
        Some(value) => Ok(Some(Key { tag, value })),
        None => Ok(None),
    }
}

impl Search {
    /// A search without keys, of a page of so many.
    pub fn new(alloc: Global, subject: Subject, institution: Listed<u8>, limit: usize) -> Search
        ensures { result ≡ record {
          subject = subject;
          institution = institution;
          keys = [];
          after = None;
          page = record { offset = 0; limit = limit };
        } }
    {
        Search {
            subject,
            institution,
            keys: Listed::empty(alloc),
            after: None,
            page: ShownPage { offset: 0, limit },
        }
    }

    /// Takes a word: `KEYWORD=VALUE`, a number of the page, `limit=N` or `offset=N`, or the unique key after which
    /// it begins, `after=UID`. The answer is whether it is one. Of several keys of an attribute the first counts;
    /// steps have no keys, and only studies, series and images of a series have pages that begin after one.
    pub fn take_word(&mut self, alloc: Global, word: &str) -> Result<bool, AllocError>
        ensures { IfOk result (λ is_taken. MatchBool is_taken (TakesWord word.now self.old self.new)
            (RefusesWord word.now self.old × (self.new ≡ self.old))) }
    {
        let Some((name, text)) = halves_of(word) else {
            return Ok(false);
        };
        self.take_named(alloc, name, text)
    }

    fn take_named(&mut self, alloc: Global, name: &str, text: &str) -> Result<bool, AllocError>
        ensures { IfOk result (λ is_taken. MatchBool is_taken (TakesNamed name.now text.now self.old self.new)
            (((new : Search) → TakesNamed name.now text.now self.old new → ⊥) × (self.new ≡ self.old))) }
    {
        if name == "limit" {
            return Ok(self.take_limit(text));
        }
        if name == "offset" {
            return Ok(self.take_offset(text));
        }
        if name == "after" {
            return self.take_after(alloc, text);
        }
        self.take_key(alloc, name, text)
    }

    fn take_limit(&mut self, text: &str) -> bool
        ensures { MatchBool result (TakesLimit text.now self.old self.new)
            (((new : Search) → TakesLimit text.now self.old new → ⊥) × (self.new ≡ self.old)) }
    {
        let Ok(number) = text.parse::<usize>() else {
            return false;
        };
        self.page.limit = number;
        true
    }

    fn take_offset(&mut self, text: &str) -> bool
        ensures { MatchBool result (TakesOffset text.now self.old self.new)
            (((new : Search) → TakesOffset text.now self.old new → ⊥) × (self.new ≡ self.old)) }
    {
        let Ok(number) = text.parse::<usize>() else {
            return false;
        };
        self.page.offset = number;
        true
    }

    fn take_after(&mut self, alloc: Global, text: &str) -> Result<bool, AllocError>
        ensures { IfOk result (λ is_taken. MatchBool is_taken (TakesAfter text.now self.old self.new)
            (((new : Search) → TakesAfter text.now self.old new → ⊥) × (self.new ≡ self.old))) }
    {
        if !self.subject.pages_by_key() {
            return Ok(false);
        }
        let Some(key) = octets_of(alloc, text)? else {
            return Ok(false);
        };
        self.after = Some(key);
        Ok(true)
    }

    fn take_key(&mut self, alloc: Global, name: &str, text: &str) -> Result<bool, AllocError>
        ensures { IfOk result (λ is_taken. MatchBool is_taken (TakesKey name.now text.now self.old self.new)
            (((new : Search) → TakesKey name.now text.now self.old new → ⊥) × (self.new ≡ self.old))) }
    {
        if self.subject == Subject::Steps {
            return Ok(false);
        }
        let Some(key) = key_given(alloc, name, text)? else {
            return Ok(false);
        };
        self.keys.push(key)?;
        Ok(true)
    }

    /// Takes the value of an attribute as it is in a path (RFC 3986 section 3.3). The answer is whether it is
    /// short enough.
    pub fn take_value(&mut self, alloc: Global, tag: Tag, text: &str) -> Result<bool, AllocError>
        ensures { IfOk result (λ is_taken. MatchBool is_taken (GivesOctets text.now tag self.old self.new)
            ((value_most < length (percent_decode text.now)) × (self.new ≡ self.old))) }
    {
        let Some(value) = octets_of(alloc, text)? else {
            return Ok(false);
        };
        self.keys.push(Key { tag, value })?;
        Ok(true)
    }

    /// The identifier that asks for this search: each attribute of the dictionary, with the value of its key.
    pub fn identifier(&self, alloc: Global) -> Result<DataSet, AllocError>
        ensures { IfOk result (λ identifier. identifier ≡ identifier_of self.now.subject self.now.keys) }
    {
        let keys = self.keys.as_slice();
        if self.subject == Subject::Worklist {
            return worklist_identifier(alloc, keys);
        }
        asked_identifier(alloc, self.subject.level(), None, keys)
    }
}
