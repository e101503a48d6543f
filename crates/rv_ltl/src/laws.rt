//! Laws of the definitions: which texts are read, and what the words of a rule file's definition say.

ghost use Rattle.std.specs.Prelude.{◌≡◌, ◌↔◌, ℕ, List, map, Some, true, false};
ghost use Rattle.rv_ltl.specs.declared.token.Token.{Token};
ghost use Rattle.rv_ltl.specs.Cuts.{Part, SplitsInto, pieces_in};
ghost use Rattle.rv_ltl.specs.Grammar.{Expr};
ghost use Rattle.rv_ltl.specs.File.{Def, defs_at, spell_file, IsFile};
ghost use Rattle.rv_ltl.specs.Reach.{IsCyclic, IsAtom};
ghost use Rattle.rv_ltl.specs.Names.{names_of};
ghost use Rattle.rv_ltl.specs.Pieces.{pieces_of};
ghost use Rattle.rv_ltl.specs.Replace.{body_of, value_of, any_endless, plain_def};
ghost use Rattle.rv_ltl.specs.Atoms.{Has, Rises};
ghost use Rattle.rv_ltl.specs.RuleFile.{atoms_of};
ghost use Rattle.rv_ltl.specs.Spelling.{AreSpelled, IsTextOf, spelled_by};
ghost use Rattle.rv_ltl.specs.Tokens.{tokens_of};

/// A text is cut into exactly the words and marks of its parts, these have exactly the tokens that they are how one
/// writes, and the definitions of a text are exactly those of which it is a text.
pub fn the_text()
    ensures cut { (bytes : List ℕ) (pieces : List (List ℕ)) → pieces_of false bytes ≡ Some pieces ↔ ((parts : List Part) × SplitsInto bytes parts × (pieces_in parts ≡ pieces)) }
    ensures spelled { (pieces : List (List ℕ)) (tokens : List Token) → tokens_of (names_of pieces) pieces ≡ Some tokens ↔ AreSpelled (names_of pieces) tokens pieces }
    ensures file { (bytes : List ℕ) (said : List Def) → spelled_by bytes ≡ Some said ↔ ((ds : List Def) × IsTextOf bytes ds × (map plain_def ds ≡ said)) }
{}

/// What is read is of the grammar, and what is of the grammar is read.
pub fn the_grammar()
    ensures { (tokens : List Token) (ds : List Def) → defs_at 256 256 tokens ≡ Some ds ↔ (IsFile 256 256 ds × (tokens ≡ spell_file ds)) }
{}

/// The definitions are refused as a cycle exactly where a name reaches itself.
pub fn cycles()
    ensures { (ds : List Def) → any_endless ds ds ≡ true ↔ IsCyclic ds }
{}

/// The atoms ascend, and are exactly the names that the root reaches and that are not defined.
pub fn atoms_are_reached()
    ensures rise { (f : Expr) → Rises 0 (atoms_of f) }
    ensures exact { (ds : List Def) (root n : ℕ) (body f : Expr) → body_of ds root ≡ Some body → value_of ds n root ≡ Some f → (y : ℕ) → Has (atoms_of f) y ↔ IsAtom ds root y }
{}
