//! Words of a pattern, which are looked for in time linear in the word and the text.
ghost use Rattle.std.specs.Prelude.{◌≡◌, ◌≢◌, ℕ, ◌+◌, ◌<◌, ◌≤◌, length, slice_index, IfSome, true};
ghost use Rattle.dq_match.specs.Wildcards.{any_run, any_one, stands_for};
ghost use Rattle.dq_match.specs.Words.{IsWord, IsStretchOf, StandsAtFront};

use crate::wildcards::Casing;

/// A word of a pattern: octets that stand for themselves, and how many others are before them.
#[derive(Clone, Copy)]
pub(crate) struct Word<'a> {
    pub(crate) before: usize,
    pub(crate) octets: &'a [u8],
}

/// How many octets of a word are there, and after how many of them the word repeats itself.
#[derive(Clone, Copy)]
pub(crate) struct Stretch {
    pub(crate) matched: usize,
    pub(crate) period: usize,
}

/// How many octets at a pattern's front are `?`.
fn any_ones(pattern: &[u8]) -> usize
    ensures within { result ≤ length pattern.now }
    ensures each { (k : ℕ) → k < result → slice_index pattern.now k ≡ any_one }
{
    pattern
        .iter()
        .position(|octet| *octet != b'?')
        .unwrap_or(pattern.len())
}

/// How many octets at a pattern's front stand for themselves.
fn plain_octets(pattern: &[u8]) -> usize
    ensures within { result ≤ length pattern.now }
    ensures no_run { (k : ℕ) → k < result → slice_index pattern.now k ≢ any_run }
    ensures no_one { (k : ℕ) → k < result → slice_index pattern.now k ≢ any_one }
{
    pattern
        .iter()
        .position(|octet| *octet == b'*' || *octet == b'?')
        .unwrap_or(pattern.len())
}

/// Whether no `?` is behind the first octets that stand for themselves, up to the next asterisk.
pub(crate) fn is_one_word(pattern: &[u8]) -> bool {
    let (_, others) = pattern.split_at(any_ones(pattern));
    others.get(plain_octets(others)) != Some(&b'?')
}

/// Where the greatest of a word's ends begins, which repeats itself in a way that is seen going
/// along it (J.-P. Duval's factors).
fn greatest_end(casing: Casing, word: &[u8]) -> usize
    ensures { result ≤ length word.now }
{
    let mut start = 0;
    while start < word.len() {
        let (_, left) = word.split_at(start);
        let stretch = Stretch::none().along(casing, left, left);
        if stretch.matched == left.len() {
            return start;
        }
        start += (stretch.matched - stretch.matched % stretch.period).max(1);
    }
    start
}

impl Word<'_> {
    /// The word of a pattern that is looked for: an end of its first octets that stand for
    /// themselves.
    #[tactic(auto, using(crate::proofs::WordsInText::word_is))]
    pub(crate) fn of(casing: Casing, pattern: &[u8]) -> Word
        ensures { IsWord pattern.now result.before result.octets.now }
    {
        let ones = any_ones(pattern);
        let (_, others) = pattern.split_at(ones);
        let (plain, _) = others.split_at(plain_octets(others));
        let start = greatest_end(casing, plain);
        let (_, octets) = plain.split_at(start);
        Word {
            before: ones + start,
            octets,
        }
    }
}

/// Whether octets are stood for by as many of a pattern, looked at from the last one.
pub(crate) fn all_stand(casing: Casing, pattern: &[u8], text: &[u8], count: usize) -> bool
    requires pattern { count ≤ length pattern.now }
    requires text { count ≤ length text.now }
    ensures { ((k : ℕ) → k < count → stands_for casing (slice_index pattern.now k)
        (slice_index text.now k) ≡ true) → result ≡ true }
{
    for at in (0..count).rev() {
        if !casing.stands_for(pattern[at], text[at]) {
            return false;
        }
    }
    true
}

impl Stretch {
    /// Nothing of a word.
    pub(crate) fn none() -> Stretch
        ensures matched { result.matched ≡ 0 }
        ensures period { result.period ≡ 1 }
    {
        Stretch {
            matched: 0,
            period: 1,
        }
    }

    /// One octet of the word more, unless it is above the one that it would repeat.
    fn grown(self, casing: Casing, word: &[u8]) -> Option<Stretch>
        requires there { self.matched < length word.now }
        requires stretch { IsStretchOf casing word.now self }
        ensures more { IfSome result (λ s. s.matched ≡ self.matched + 1) }
        ensures stretch { IfSome result (λ s. IsStretchOf casing word.now s) }
    {
        let matched = self.matched + 1;
        if self.matched == 0 {
            return Some(Stretch { matched, period: 1 });
        }
        let next = casing.compared(word[self.matched]);
        let repeated = casing.compared(word[self.matched - self.period]);
        if next == repeated {
            return Some(Stretch {
                matched,
                period: self.period,
            });
        }
        if next < repeated {
            return Some(Stretch {
                matched,
                period: matched,
            });
        }
        None
    }

    /// Goes on along the word and the text as far as they agree.
    pub(crate) fn along(self, casing: Casing, word: &[u8], text: &[u8]) -> Stretch
        requires within { self.matched ≤ length word.now }
        requires text { length word.now ≤ length text.now }
        requires stretch { IsStretchOf casing word.now self }
        requires agrees { StandsAtFront casing word.now text.now self.matched }
        ensures within { result.matched ≤ length word.now }
        ensures stretch { IsStretchOf casing word.now result }
        ensures agrees { StandsAtFront casing word.now text.now result.matched }
    {
        let mut stretch = self;
        while stretch.matched < word.len() {
            let at = stretch.matched;
            if casing.compared(word[at]) != casing.compared(text[at]) {
                return stretch;
            }
            let Some(grown) = stretch.grown(casing, word) else {
                return stretch;
            };
            stretch = grown;
        }
        stretch
    }

    /// Returns the stretch of the word that is left after going on by a period.
    pub(crate) fn shifted(self, casing: Casing, word: &[u8]) -> Stretch
        requires { IsStretchOf casing word.now self }
        ensures stretch { IsStretchOf casing word.now result }
        ensures less { 0 < result.matched → result.matched + self.period ≡ self.matched }
    {
        let matched = self.matched.saturating_sub(self.period);
        if matched < self.period {
            return Stretch::none();
        }
        Stretch {
            matched,
            period: self.period,
        }
    }
}
