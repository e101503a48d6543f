//! What takes bytes, and how a whole text is put into it.
ghost use Rattle.std.specs.Prelude.{◌≡◌, ◌≤◌, ℕ, List, Option, length, drop};
ghost use Rattle.rv_io.specs.Taken.{Puts, PutsWhole};

/// A put failed, and was counted as a fault. Nothing of the piece was taken.
#[derive(Clone, Copy, Debug, PartialEq, Eq)]
pub struct PutFault;

pub trait Sink {
    /// The bytes taken, where the sink tells them.
    ghost taken: { Self → Option (List ℕ) };

    /// How many faults there were: each failed put is one more. The count stands still at the last value of a `u64`.
    ghost faults: { Self → ℕ };

    /// Takes some of the front of the piece, and says how many bytes.
    fn put(&mut self, bytes: &[u8]) -> Result<usize, PutFault>
        ensures put { Puts (taken self.old) (taken self.new) (faults self.old) (faults self.new) bytes.now result };
}

/// What follows the front that was taken.
fn after_front(bytes: &[u8], count: usize) -> &[u8]
    requires { count ≤ length bytes.now }
    ensures { result.now ≡ drop count bytes.now }
{
    &bytes[count..]
}

/// Puts a whole text, in as many pieces as the sink takes it.
pub fn put_all<K: Sink>(out: &mut K, bytes: &[u8]) -> Result<(), PutFault>
    ensures put { PutsWhole (K.taken out.old) (K.taken out.new) (K.faults out.old) (K.faults out.new) bytes.now result }
{
    let mut rest = bytes;
    while !rest.is_empty() {
        let count = out.put(rest)?;
        rest = after_front(rest, count);
    }
    Ok(())
}
