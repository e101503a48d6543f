//! Whether an automaton accepts letters, by trying all its paths.
ghost use Rattle.std.specs.Prelude.{◌≡◌, ◌↔◌, ℕ, List, IsTrue};
ghost use Rattle.rv_model.specs.Language.{IsPath, HasEdge, Accepts};
ghost use Rattle.rv_reference.specs.inner.Edges.{is_edge_by};

use rv_model::{Automaton, Edge, Letter};

/// Whether some path from the initial state takes the letters.
pub fn accepts(automaton: &Automaton, letters: &[Letter]) -> bool
    ensures { IsTrue result ↔ Accepts automaton.now letters.now }
{
    accepts_from(automaton, 0, letters)
}

fn accepts_from(automaton: &Automaton, state: usize, letters: &[Letter]) -> bool
    ensures { IsTrue result ↔ ((path : List ℕ) × IsPath (HasEdge automaton.now) state path letters.now) }
{
    let [first, rest @ ..] = letters else {
        return true;
    };
    for edge in &automaton.edges {
        if leads(edge, state, *first) && accepts_from(automaton, edge.to as usize, rest) {
            return true;
        }
    }
    false
}

/// Whether the edge leads from the state by the letter.
pub fn leads(edge: &Edge, state: usize, letter: Letter) -> bool
    ensures { result ≡ is_edge_by state letter edge.now }
{
    match letter {
        Letter::Event(event) => edge.from as usize == state && edge.event == event,
        Letter::Atoms(_) => false,
    }
}
