//! What a letter needs and what it may not have, as two sets of atoms.
ghost use Rattle.std.specs.Prelude.{◌≡◌, ◌↔◌, ◌<◌, IsTrue};
ghost use Rattle.rv_labels.specs.Cubes.{cube_of, union_of, is_possible};
ghost use Rattle.rv_labels.specs.Holding.{Meets, meets};

/// Sets of atoms, with a bit for each.
#[derive(Clone, Copy, Debug, PartialEq, Eq)]
pub struct Cube {
    /// The letter has all of them.
    pub need: u32,
    /// The letter has none of them.
    pub forbid: u32,
}

impl Cube {
    /// Whether the letter has every atom that is needed, and none that is forbidden.
    pub fn holds(&self, atoms: u32) -> bool
        ensures test { result ≡ meets atoms self.now }
        ensures meets { IsTrue result ↔ Meets atoms self.now }
    {
        atoms & self.need == self.need && atoms & self.forbid == 0
    }
}

/// The cube of one atom, which a letter has to have, or may not have.
pub fn of_atom(atom: u8, positive: bool) -> Cube
    requires { atom < 32 }
    ensures { result ≡ cube_of atom positive }
{
    let bit = 1 << atom;
    if positive {
        Cube {
            need: bit,
            forbid: 0,
        }
    } else {
        Cube {
            need: 0,
            forbid: bit,
        }
    }
}

/// What both ask.
pub fn union(left: Cube, right: Cube) -> Cube
    ensures { result ≡ union_of left right }
{
    Cube {
        need: left.need | right.need,
        forbid: left.forbid | right.forbid,
    }
}

/// Whether no atom is both needed and forbidden.
pub fn is_free(cube: Cube) -> bool
    ensures { result ≡ is_possible cube }
{
    cube.need & cube.forbid == 0
}
