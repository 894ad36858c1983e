//! Wild card matching (PS3.4 section C.2.2.2.4).
ghost use Rattle.std.specs.Prelude.{◌≡◌, ◌≢◌, ℕ, ◌+◌, ◌<◌, ◌≤◌, false, length, slice_index};
ghost use Rattle.dq_match.specs.Wildcards.{wild, compared_octet, stands_for, any_run};
ghost use Rattle.dq_match.specs.Scans.{IsScan, IsFirstFit};
ghost use Rattle.dq_match.specs.Words.{IsWord};
ghost use Rattle.dq_match.specs.declared.wildcards.Casing.TheVariants.{Exact};

use crate::pieces::{ABREAST, first_fit_abreast};
use crate::words::{Stretch, Word, all_stand, is_one_word};

/// The way in which octets are compared: exactly, or with upper and lower case as one.
#[derive(Clone, Copy, Debug, PartialEq, Eq)]
pub enum Casing {
    Exact,
    Folded,
}

/// Whether the pattern fits the text: `*` stands for any run of octets, `?` for one octet, and any
/// other octet for itself (PS3.4 section C.2.2.2.4).
pub fn wild(pattern: &[u8], text: &[u8]) -> bool
    ensures { result ≡ wild Exact pattern.now text.now }
{
    wild_by(Casing::Exact, pattern, text)
}

/// How far a pattern goes along a text: to the end of both, to octets that differ, or to an
/// asterisk.
#[derive(Clone, Copy)]
pub(crate) enum Scan<'a> {
    End,
    Mismatch,
    Star(&'a [u8], &'a [u8]),
}

impl Casing {
    pub(crate) fn compared(self, octet: u8) -> u8
        ensures { result ≡ compared_octet self octet }
    {
        match self {
            Casing::Exact => octet,
            Casing::Folded => octet.to_ascii_lowercase(),
        }
    }

    pub(crate) fn stands_for(self, wanted: u8, octet: u8) -> bool
        ensures { result ≡ stands_for self wanted octet }
    {
        wanted == b'?' || self.compared(wanted) == self.compared(octet)
    }
}

/// Goes along the text up to the first asterisk of the pattern.
#[tactic(auto, using(crate::proofs::Scanning::along_more))]
pub(crate) fn scanned<'a>(casing: Casing, pattern: &'a [u8], text: &'a [u8]) -> Scan<'a>
    ensures { IsScan casing pattern.now text.now result }
{
    let mut wanted = pattern;
    let mut left = text;
    while let Some((first, others)) = wanted.split_first() {
        if *first == b'*' {
            return Scan::Star(others, left);
        }
        let Some((octet, rest)) = left.split_first() else {
            return Scan::Mismatch;
        };
        if !casing.stands_for(*first, *octet) {
            return Scan::Mismatch;
        }
        wanted = others;
        left = rest;
    }
    if left.is_empty() {
        Scan::End
    } else {
        Scan::Mismatch
    }
}

/// Goes along the text from one start, of which so many octets of the pattern's word are known to be
/// there. It does not go along where the word's next octet is not there, or what is before the word.
#[tactic(auto, using(crate::proofs::WordsInText::differs_at))]
fn tried<'a>(
    casing: Casing,
    pattern: &'a [u8],
    text: &'a [u8],
    word: Word,
    there: usize,
) -> Scan<'a>
    requires word { IsWord pattern.now word.before word.octets.now }
    requires text { word.before + length word.octets.now ≤ length text.now }
    ensures { IsScan casing pattern.now text.now result }
{
    if there < word.octets.len() {
        let octet = text[word.before + there];
        if casing.compared(word.octets[there]) != casing.compared(octet) {
            return Scan::Mismatch;
        }
    }
    if !all_stand(casing, pattern, text, word.before) {
        return Scan::Mismatch;
    }
    scanned(casing, pattern, text)
}

/// Goes along the text from the first start at which the pattern fits up to its next asterisk.
fn first_fit<'a>(casing: Casing, pattern: &'a [u8], text: &'a [u8]) -> Scan<'a>
    ensures { IsFirstFit casing pattern.now text.now result }
{
    let word = Word::of(casing, pattern);
    let mut left = text;
    let mut stretch = Stretch::none();
    while word.before + word.octets.len() <= left.len() {
        let (_, ahead) = left.split_at(word.before);
        let along = stretch.along(casing, word.octets, ahead);
        match tried(casing, pattern, left, word, along.matched) {
            Scan::End => return Scan::End,
            Scan::Star(others, rest) => return Scan::Star(others, rest),
            Scan::Mismatch => {}
        }
        if left.len() < along.period {
            return Scan::Mismatch;
        }
        let (_, rest) = left.split_at(along.period);
        left = rest;
        stretch = along.shifted(casing, word.octets);
    }
    Scan::Mismatch
}

fn has_asterisk(pattern: &[u8]) -> bool
    ensures { result ≡ false → (k : ℕ) → k < length pattern.now
        → slice_index pattern.now k ≢ any_run }
{
    pattern.iter().any(|octet| *octet == b'*')
}

/// A pattern without an asterisk fits the end of a text after some run, or none.
#[tactic(auto, using(crate::proofs::WordsInText::fit_at_end))]
fn at_end<'a>(casing: Casing, pattern: &'a [u8], text: &'a [u8]) -> Scan<'a>
    requires { (k : ℕ) → k < length pattern.now → slice_index pattern.now k ≢ any_run }
    ensures { IsFirstFit casing pattern.now text.now result }
{
    if text.len() < pattern.len() {
        return Scan::Mismatch;
    }
    let (_, end) = text.split_at(text.len() - pattern.len());
    scanned(casing, pattern, end)
}

/// Goes along the text from the first start at which what is behind an asterisk fits. A single word
/// is looked for in one pass, but for short texts.
fn behind_asterisk<'a>(casing: Casing, pattern: &'a [u8], text: &'a [u8]) -> Scan<'a>
    ensures { IsFirstFit casing pattern.now text.now result }
{
    if !has_asterisk(pattern) {
        return at_end(casing, pattern, text);
    }
    if ABREAST <= text.len() && is_one_word(pattern) {
        return first_fit(casing, pattern, text);
    }
    first_fit_abreast(casing, pattern, text)
}

/// Whether the pattern fits the text, with letters compared by the casing.
pub(crate) fn wild_by(casing: Casing, pattern: &[u8], text: &[u8]) -> bool
    ensures { result ≡ wild casing pattern.now text.now }
{
    let mut scan = scanned(casing, pattern, text);
    while let Scan::Star(others, rest) = scan {
        scan = behind_asterisk(casing, others, rest);
    }
    match scan {
        Scan::End => true,
        _ => false,
    }
}
