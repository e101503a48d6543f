//! The names that a journal has for acts, for modes and for kinds of letters.
ghost use Rattle.std.specs.Prelude.{◌≡◌};
ghost use Rattle.rv_journal.specs.inner.PieceReadings.{mode_in, kind_in, verb_in};

use rv_model::Mode;

/// An act by its name alone, without its numbers.
#[derive(Clone, Copy, Drop)]
pub(crate) enum ActVerb {
    Deliver,
    Stop,
    Look,
    Raise,
    Lower,
    Clear,
    End,
}

/// What kind of letter is delivered: an automaton's event, or a rule's atoms.
#[derive(Clone, Copy, Drop)]
pub(crate) enum LetterKind {
    Da,
    Ltl,
}

/// The mode that a word names. An end is in no journal.
#[tactic(auto, unfolding(crate::specs::inner::PieceReadings::mode_in))]
pub(crate) fn mode_in(word: &[u8]) -> Option<Mode>
    ensures { result ≡ mode_in word.now }
{
    if word == b"event".as_slice() {
        Some(Mode::Event)
    } else if word == b"start".as_slice() {
        Some(Mode::Start)
    } else if word == b"start_run".as_slice() {
        Some(Mode::StartRun)
    } else {
        None
    }
}

/// The kind of letter that a word names.
#[tactic(auto, unfolding(crate::specs::inner::PieceReadings::kind_in))]
pub(crate) fn kind_in(word: &[u8]) -> Option<LetterKind>
    ensures { result ≡ kind_in word.now }
{
    if word == b"da".as_slice() {
        Some(LetterKind::Da)
    } else if word == b"ltl".as_slice() {
        Some(LetterKind::Ltl)
    } else {
        None
    }
}

/// The act that a word names, without its numbers.
#[tactic(auto, unfolding(crate::specs::inner::PieceReadings::verb_in))]
pub(crate) fn verb_in(word: &[u8]) -> Option<ActVerb>
    ensures { result ≡ verb_in word.now }
{
    if word == b"deliver".as_slice() {
        Some(ActVerb::Deliver)
    } else if word == b"stop".as_slice() {
        Some(ActVerb::Stop)
    } else if word == b"look".as_slice() {
        Some(ActVerb::Look)
    } else if word == b"raise".as_slice() {
        Some(ActVerb::Raise)
    } else if word == b"lower".as_slice() {
        Some(ActVerb::Lower)
    } else if word == b"clear".as_slice() {
        Some(ActVerb::Clear)
    } else if word == b"end".as_slice() {
        Some(ActVerb::End)
    } else {
        None
    }
}
