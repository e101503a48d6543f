//! Laws of the generated input, each the contract of a call that does nothing.
ghost use Rattle.std.specs.Prelude.{◌≡◌, ◌≤◌, ◌*◌, ℕ, length, Ok};
ghost use Rattle.rv_dot.specs.Canonical.{dot_text};
ghost use Rattle.rv_dot.specs.Dot.{dot_of};
ghost use Rattle.rv_gen.specs.Generated.{wip, wwnr, trace_text};

/// What is read of the generated automata's texts are the automata.
pub fn automata_are_read()
    ensures wip { dot_of (dot_text wip) ≡ Ok wip }
    ensures wwnr { dot_of (dot_text wwnr) ≡ Ok wwnr }
{}

/// The trace of N blocks has at most 8512 N bytes, 133 a line: that of `MAX_BLOCKS` blocks at most 133 million.
pub fn blocks_are_short()
    ensures { (blocks : ℕ) → length (trace_text blocks) ≤ 8512 * blocks }
{}
