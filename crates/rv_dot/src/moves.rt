//! Moves by number, ascending, and whether two of them clash.

ghost use Rattle.std.specs.Prelude.{◌≡◌};
ghost use Rattle.rv_dot.specs.inner.Clashes.{has_clash};

/// From one state to another by an event, each by its number.
#[derive(Clone, Copy, PartialEq, Eq, PartialOrd, Ord)]
pub struct Move {
    pub from: usize,
    pub event: usize,
    pub to: usize,
}

/// Whether two neighbours lead from one state by one event to different states.
pub fn clash(moves: &[Move]) -> bool
    ensures { result ≡ has_clash moves.now }
{
    let mut rest = moves;
    'moves: while let [first, behind @ ..] = rest {
        if let [second, ..] = behind {
            if first.from == second.from && first.event == second.event {
                return true;
            }
        }
        rest = behind;
    }
    false
}
