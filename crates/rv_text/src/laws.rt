//! The numbers that a user sees, each the contract of a call that does nothing.
ghost use Rattle.rv_text.specs.Numbers.{RefusalNumbers, StatusNumbers};

/// What is printed as the number of a refusal, and what a call ends with.
pub fn numbers_are_numerals()
    ensures refusals { RefusalNumbers }
    ensures statuses { StatusNumbers }
{}
