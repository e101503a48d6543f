//! Tokens of a rule file, and the postfix code of its formulas.

/// An operator before its operand.
#[derive(Clone, Copy)]
pub enum Unary {
    /// `always`: now and at every later letter.
    Always,
    /// `eventually`: now or at some later letter.
    Eventually,
    /// `next`: at the next letter.
    Next,
    /// `not`
    Not,
}

/// An operator between its operands.
#[derive(Clone, Copy)]
pub enum Binary {
    /// `and`
    And,
    /// `or`
    Or,
    /// `until`: the right one at some letter, and the left one at each before it.
    Until,
    /// `release`: the right one up to and with the first letter where the left one holds too, or at every letter.
    Release,
    /// `weak_until`: as `until`, but the right one need not come.
    WeakUntil,
    /// `imply`
    Imply,
    /// `equivalent`
    Equivalent,
}

/// A token; a name is known by its place among the file's names, ascending by bytes.
#[derive(Clone, Copy)]
pub enum Token {
    /// `(`
    Open,
    /// `)`
    Close,
    /// `=`
    Equals,
    /// `true`
    True,
    /// `false`
    False,
    /// A name.
    Name(usize),
    /// An operator before its operand.
    Unary(Unary),
    /// An operator between its operands.
    Binary(Binary),
}

/// One step of a formula's postfix code: an operand, or an operator that takes the operands before it.
#[derive(Clone, Copy)]
pub enum CodeStep {
    /// `true`
    True,
    /// `false`
    False,
    /// A name.
    Name(usize),
    /// An operator that takes the last operand.
    Unary(Unary),
    /// An operator that takes the last two operands.
    Binary(Binary),
}
