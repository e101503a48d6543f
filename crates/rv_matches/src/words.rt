//! Words by first appearance, each with how often it was there.
ghost use Rattle.std.specs.Prelude.{◌≡◌, ◌+◌, ◌<◌, [], ◌∷◌, ◌++◌, length, map, take, false, slice_get, Some, IfOk, IfSome, IfNone, OnOk};
ghost use Rattle.rv_matches.specs.Words.{counted_value, is_kept_among, CountsWord};

use rv_trace::HeldWord;
use std::alloc::{AllocError, Global};
use std::collections::BTreeMap;
use std::marker::Model;

/// The most bytes of a name, of a value and of a timestamp that is kept.
pub const LONGEST: usize = 64;

/// One more. More than fit would be more lines than there is memory for.
pub(crate) fn one_more(count: u64) -> Result<u64, AllocError>
    ensures { IfOk result (λ n. n ≡ count + 1) }
{
    count.checked_add(1).ok_or(AllocError)
}

/// How many keys there are.
pub(crate) const KEYS: usize = 512;
/// Up to so many words are found in the map alone.
const FEW_WORDS: usize = 16;

/// A number that most words have for themselves, from their middle and last byte and their length.
#[inline(always)]
pub(crate) fn key_of(word: &[u8]) -> usize
    ensures { result < KEYS }
{
    if word.is_empty() {
        return 0;
    }
    let middle = word[word.len() / 2] as usize;
    let last = word[word.len() - 1] as usize;
    ((middle * 3 + last) * 3 + word.len() % 256) % KEYS
}

/// A word that is kept, and how often it was there.
#[derive(Drop)]
struct Kept {
    word: HeldWord,
    count: u64,
}

/// Once more.
fn count_again(kept: &mut Kept) -> Result<(), AllocError>
    ensures word { kept.new.word ≡ kept.old.word }
    ensures count { OnOk result (kept.new.count ≡ kept.old.count + 1) }
{
    kept.count = one_more(kept.count)?;
    Ok(())
}

/// The first words that are not too long, and how many others there were.
#[derive(Drop)]
pub struct CountedWords {
    /// How many words are kept at most.
    most: usize,
    list: Vec<Kept>,
    /// The place of each word. No words that are chosen make an ordered map slow.
    places: BTreeMap<Vec<u8>, usize>,
    /// For each key the place of the first word with it, where there may be many words. It is only believed if the word stands there.
    leads: Vec<Option<usize>>,
    /// The place of the word that was counted again last: many come in runs. It is only believed if the word stands there.
    last: usize,
    others: u64,
}

impl Model for CountedWords {
    ghost use Rattle.std.specs.Prelude.{map};
    ghost use Rattle.rv_trace.specs.FieldNames.{ArePlaces};
    ghost use Rattle.rv_matches.specs.Words.{CountedValue};

    ghost Value = { CountedValue };

    ghost view = { λ c. record { most = c.most; words = map (λ k. (k.word, k.count)) c.list.items; others = c.others } };

    ghost invariant = { λ c. ArePlaces (map (λ k. k.word) c.list.items) c.places };
}

impl CountedWords {
    /// No word was there. No memory is taken.
    pub fn new(alloc: Global, most: usize) -> CountedWords
        ensures { result ≡ counted_value most [] }
    {
        CountedWords {
            most,
            list: Vec::new(alloc),
            places: BTreeMap::new(alloc),
            leads: Vec::new(alloc),
            last: 0,
            others: 0,
        }
    }

    /// The place, if the word stands there.
    #[inline(always)]
    fn held_place(&self, word: &[u8], text: &[u8], place: usize) -> Option<usize>
        requires { take (length word.now) text.now ≡ word.now }
        ensures { IfSome result (λ place. slice_get (map (λ counted. counted.0) self.now.words) place ≡ Some word.now) }
    {
        let kept = self.list.get(place)?;
        if kept.word.is(word, text) {
            return Some(place);
        }
        None
    }

    /// Where the last word stands or the word's key leads, if the word stands there.
    #[inline(always)]
    fn led_place(&self, word: &[u8], text: &[u8]) -> Option<usize>
        requires { take (length word.now) text.now ≡ word.now }
        ensures { IfSome result (λ place. slice_get (map (λ counted. counted.0) self.now.words) place ≡ Some word.now) }
    {
        if let Some(place) = self.held_place(word, text, self.last) {
            return Some(place);
        }
        let place = (*self.leads.get(key_of(word))?)?;
        self.held_place(word, text, place)
    }

    /// Where the word stands, if it is kept.
    fn place_of(&self, word: &[u8]) -> Option<usize>
        ensures some { IfSome result (λ place. slice_get (map (λ counted. counted.0) self.now.words) place ≡ Some word.now) }
        ensures none { IfNone result (is_kept_among (map (λ counted. counted.0) self.now.words) word.now ≡ false) }
    {
        if let Some(place) = self.places.get(word) {
            return Some(*place);
        }
        None
    }

    /// The key leads to the place, if it leads nowhere yet.
    fn lead(&mut self, alloc: Global, key: usize, place: usize) -> Result<(), AllocError>
        ensures { self.new ≡ self.old }
    {
        if self.most <= FEW_WORDS {
            return Ok(());
        }
        if self.leads.is_empty() {
            self.leads = vec![in alloc; None; KEYS]?;
        }
        if key < self.leads.len() && self.leads[key].is_none() {
            self.leads[key] = Some(place);
        }
        Ok(())
    }

    /// A word that is new comes last.
    fn keep(&mut self, alloc: Global, word: &[u8]) -> Result<(), AllocError>
        requires { is_kept_among (map (λ counted. counted.0) self.old.words) word.now ≡ false }
        ensures words { OnOk result (self.new.words ≡ self.old.words ++ (word.now, 1) ∷ []) }
        ensures others { self.new.others ≡ self.old.others }
        ensures most { self.new.most ≡ self.old.most }
    {
        let place = self.list.len();
        let lead = key_of(word);
        let key = Vec::from_slice(alloc, word)?;
        let word = HeldWord::new(alloc, word)?;
        self.list.reserve(1)?;
        self.places.insert(key, place)?;
        match self.list.push(Kept { word, count: 1 }) {
            Ok(()) => {}
            Err(_) => unreachable!(),
        }
        self.lead(alloc, lead, place)?;
        Ok(())
    }

    /// One more word, wherever it stands. Apart from the words that are found at once, which are most.
    #[inline(never)]
    fn add_sought(&mut self, alloc: Global, word: &[u8]) -> Result<(), AllocError>
        ensures counts { OnOk result (CountsWord word.now self.old self.new) }
        ensures most { self.new.most ≡ self.old.most }
    {
        if let Some(place) = self.place_of(word) {
            count_again(&mut self.list[place])?;
            return Ok(());
        }
        if self.list.len() < self.most && word.len() <= LONGEST {
            self.keep(alloc, word)?;
            return Ok(());
        }
        self.others = one_more(self.others)?;
        Ok(())
    }

    /// One more word.
    #[inline(always)]
    pub fn add(&mut self, alloc: Global, word: &[u8]) -> Result<(), AllocError>
        ensures counts { OnOk result (CountsWord word.now self.old self.new) }
        ensures most { self.new.most ≡ self.old.most }
    {
        self.add_in(alloc, word, word)
    }

    /// One more word, with which a text begins.
    #[inline(always)]
    pub(crate) fn add_in(
        &mut self,
        alloc: Global,
        word: &[u8],
        text: &[u8],
    ) -> Result<(), AllocError>
        requires { take (length word.now) text.now ≡ word.now }
        ensures counts { OnOk result (CountsWord word.now self.old self.new) }
        ensures most { self.new.most ≡ self.old.most }
    {
        if let Some(place) = self.led_place(word, text) {
            self.last = place;
            count_again(&mut self.list[place])?;
            return Ok(());
        }
        self.add_sought(alloc, word)
    }

    /// How many words are kept.
    pub fn len(&self) -> usize
        ensures { result ≡ length self.now.words }
    {
        self.list.len()
    }

    /// The word at a place, by first appearance.
    pub fn word(&self, place: usize) -> &[u8]
        requires { place < length self.now.words }
        ensures { IfSome (slice_get self.now.words place) (λ counted. result.now ≡ counted.0) }
    {
        self.list[place].word.bytes()
    }

    /// How often the word at a place was there.
    pub fn count(&self, place: usize) -> u64
        requires { place < length self.now.words }
        ensures { IfSome (slice_get self.now.words place) (λ counted. result ≡ counted.1) }
    {
        self.list[place].count
    }

    /// How many words there were that are not kept.
    pub fn others(&self) -> u64
        ensures { result ≡ self.now.others }
    {
        self.others
    }
}
