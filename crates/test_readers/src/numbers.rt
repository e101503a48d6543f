//! Answers by the numbers of their refusals, as tables of inputs have them.
use rv_text::Refused;

/// The refusal's number, 0 for what is read, and 255 where memory ran out.
pub(crate) fn refusal_of<T: Drop>(answer: Result<T, Refused>) -> u8 {
    match answer {
        Ok(_) => 0,
        Err(Refused::Because(refusal)) => refusal.number,
        Err(Refused::Memory) => 255,
    }
}
