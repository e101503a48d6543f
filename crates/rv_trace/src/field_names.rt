//! Names of fields that are looked for together, in one walk over the words of a line.
ghost use Rattle.std.specs.Prelude.{◌≡◌, ◌≢◌, ◌⊎◌, ◌<◌, ◌≤◌, ◌+◌, ◌∷◌, ◌++◌, ℕ, [], true, length, slice_index, slice_get, All, Some, IfOk, OnOk, OnErr};
ghost use Rattle.std.specs.List.{list_all};
ghost use Rattle.rv_text.specs.Places.{run_end};
ghost use Rattle.rv_text.specs.declared.runs.ByteClass.TheVariants as kinds;
ghost use Rattle.rv_trace.specs.inner.Noting.{HasNothing};
ghost use Rattle.rv_trace.specs.FoundFields.{AreFound, IsInside, Extends};
ghost use Rattle.rv_trace.specs.FieldNames.{IsPlain, is_plain_byte};
ghost use Rattle.rv_trace.specs.inner.Naming.{TakesWord};

use crate::fields::held_field;
use crate::found_fields::FoundFields;
use crate::held_word::HeldWord;
use crate::line::Span;
use crate::runs::word_end;
use rv_text::ByteClass;
use std::alloc::{AllocError, Global};
use std::collections::BTreeMap;
use std::marker::Model;

/// Names of fields, each once.
#[derive(Drop)]
pub struct FieldNames {
    names: Vec<HeldWord>,
    /// Where each name stands. No names that are chosen make an ordered map slow.
    places: BTreeMap<Vec<u8>, usize>,
    /// Whether each name lies within a word, so that a word can have no other field than its first `=` tells.
    plain: bool,
}

impl Model for FieldNames {
    ghost use Rattle.std.specs.Prelude.{◌≡◌, List, ℕ, All, true};
    ghost use Rattle.rv_trace.specs.FieldNames.{ArePlaces, IsPlain};

    ghost Value = { List (List ℕ) };

    ghost view = { λ n. n.names.items };

    ghost invariant = { λ n. ArePlaces n.names.items n.places × (n.plain ≡ true → All IsPlain n.names.items) };
}

/// Whether the byte is no blank and no `=`.
fn is_plain_byte(byte: u8) -> bool
    ensures { result ≡ is_plain_byte byte }
{
    byte != b'=' && !ByteClass::Blank.has(byte)
}

/// Whether the name lies within a word, before its first `=`.
fn is_plain(name: &[u8]) -> bool
    ensures { result ≡ list_all is_plain_byte name.now }
{
    name.iter().all(|byte| is_plain_byte(*byte))
}

/// The first `=` of a word, or its end.
fn name_end(fields: &[u8], from: usize, to: usize) -> usize
    requires order { from ≤ to }
    requires within { to ≤ length fields.now }
    ensures low { from ≤ result }
    ensures high { result ≤ to }
    ensures before { (place : ℕ) → from ≤ place → place < result → slice_index fields.now place ≢ 61 }
    ensures at { result < to → slice_index fields.now result ≡ 61 }
{
    let mut end = from;
    while end < to && fields[end] != b'=' {
        end += 1;
    }
    end
}

impl FieldNames {
    /// No name.
    pub fn new(alloc: Global) -> FieldNames
        ensures { result ≡ [] }
    {
        FieldNames {
            names: Vec::new(alloc),
            places: BTreeMap::new(alloc),
            plain: true,
        }
    }

    /// The names, in order.
    pub fn names(&self) -> &[HeldWord]
        ensures { result.now ≡ self.now }
    {
        self.names.as_slice()
    }

    /// The place of a name, where a new one goes last.
    pub fn place(&mut self, alloc: Global, name: &[u8]) -> Result<usize, AllocError>
        ensures place { IfOk result (λ place. slice_get self.new place ≡ Some name.now) }
        ensures grown { OnOk result (Extends self.old self.new) }
        ensures appended { OnOk result ((self.new ≡ self.old) ⊎ (self.new ≡ self.old ++ name.now ∷ [])) }
        ensures err { OnErr result (self.new ≡ self.old) }
    {
        if let Some(place) = self.places.get(name) {
            return Ok(*place);
        }
        self.add(alloc, name)
    }

    /// Appends a new name, and tells its place.
    fn add(&mut self, alloc: Global, name: &[u8]) -> Result<usize, AllocError>
        requires { (place : ℕ) → slice_get self.old place ≢ Some name.now }
        ensures place { IfOk result (λ place. slice_get self.new place ≡ Some name.now) }
        ensures grown { OnOk result (Extends self.old self.new) }
        ensures appended { OnOk result (self.new ≡ self.old ++ name.now ∷ []) }
        ensures err { OnErr result (self.new ≡ self.old) }
    {
        let place = self.names.len();
        self.names.reserve(1)?;
        let key = Vec::from_slice(alloc, name)?;
        let owned = HeldWord::new(alloc, name)?;
        self.places.insert(key, place)?;
        match self.names.push(owned) {
            Ok(()) => {}
            Err(_) => unreachable!(),
        }
        let plain = self.plain && is_plain(name);
        self.plain = plain;
        Ok(place)
    }

    /// Looks the names up one by one.
    fn search(&self, fields: &[u8], found: &mut FoundFields) -> Result<(), AllocError>
        requires size { length fields.now ≤ 4294967295 }
        requires many { length self.now ≤ length found.old }
        requires nothing { HasNothing found.old }
        ensures found { OnOk result (AreFound fields.now self.now found.new) }
        ensures inside { OnOk result (All (IsInside fields.now) found.new) }
    {
        for place in 0..self.names.len() {
            if let Some(span) = held_field(fields, &self.names[place]) {
                found.note(place, span)?;
            }
        }
        Ok(())
    }

    /// Notes the field of the word that begins at a place, if it is wanted, and tells where the next word may begin.
    fn take_word(
        &self,
        fields: &[u8],
        place: usize,
        found: &mut FoundFields,
    ) -> Result<usize, AllocError>
        requires size { length fields.now ≤ 4294967295 }
        requires plain { All IsPlain self.now }
        requires many { length self.now ≤ length found.old }
        requires within { place < length fields.now }
        ensures next { IfOk result (λ next. next ≡ run_end kinds.Word fields.now place + 1) }
        ensures later { IfOk result (λ next. place < next) }
        ensures takes { OnOk result (TakesWord fields.now self.now place found.old found.new) }
    {
        let to = word_end(fields, place);
        let end = name_end(fields, place, to);
        if end < to {
            if let Some(index) = self.places.get(&fields[place..end]) {
                let from = (end + 1) as u32;
                found.note(
                    *index,
                    Span {
                        from,
                        to: to as u32,
                    },
                )?;
            }
        }
        Ok(to + 1)
    }

    /// Looks the names up from word to word.
    fn walk(&self, fields: &[u8], found: &mut FoundFields) -> Result<(), AllocError>
        requires size { length fields.now ≤ 4294967295 }
        requires plain { All IsPlain self.now }
        requires many { length self.now ≤ length found.old }
        requires nothing { HasNothing found.old }
        ensures found { OnOk result (AreFound fields.now self.now found.new) }
        ensures inside { OnOk result (All (IsInside fields.now) found.new) }
    {
        let mut place = 0;
        while place < fields.len() {
            place = self.take_word(fields, place, found)?;
        }
        Ok(())
    }

    /// Looks all names up on a line. What was found before is taken back.
    #[inline(never)]
    pub fn find(&self, fields: &[u8], found: &mut FoundFields) -> Result<(), AllocError>
        requires { length fields.now ≤ 4294967295 }
        ensures found { OnOk result (AreFound fields.now self.now found.new) }
        ensures inside { OnOk result (All (IsInside fields.now) found.new) }
    {
        found.begin(self.names.len())?;
        if self.plain {
            self.walk(fields, found)
        } else {
            self.search(fields, found)
        }
    }
}
