//! A law of the definitions: which texts are read.
ghost use Rattle.std.specs.Prelude.{◌≡◌, ◌↔◌, ℕ, List, Some};
ghost use Rattle.rv_dot.specs.Grammar.{File, file_says};
ghost use Rattle.rv_dot.specs.Statements.{Claim};
ghost use Rattle.rv_dot.specs.Text.{IsTextOf, said_by};

/// What is read is of the grammar, and what is of the grammar is read.
pub fn the_grammar()
    ensures { (bytes : List ℕ) (claims : List Claim) → said_by bytes ≡ Some claims ↔ ((f : File) × IsTextOf bytes f × (file_says f ≡ claims)) }
{}
