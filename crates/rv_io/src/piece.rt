//! A piece of a text that is held.
ghost use Rattle.std.specs.Prelude.{◌≡◌, ◌≤◌, ◌-◌, drop, length, min, unwrap_or, IfSome};
ghost use Rattle.rv_io.specs.Pieces.{IsPiece};

/// What stands from a place on.
fn rest_of(bytes: &[u8], from: u64) -> &[u8]
    ensures { result.now ≡ drop from bytes.now }
{
    if from < bytes.len() as u64 {
        &bytes[from as usize..]
    } else {
        &bytes[bytes.len()..]
    }
}

/// Puts the bytes from a place on into the front of `into`, as many as there is room for and at most so many, and
/// answers how many.
pub fn piece_of(bytes: &[u8], from: u64, most: Option<usize>, into: &mut [u8]) -> usize
    requires { IfSome most (λ most. 1 ≤ most) }
    ensures piece { IsPiece bytes.now from into.old into.new result }
    ensures count { result ≡ min (unwrap_or most (length into.old)) (min (length into.old) (length bytes.now - from)) }
{
    let rest = rest_of(bytes, from);
    let fits = rest.len().min(into.len());
    let count = match most {
        Some(most) => fits.min(most),
        None => fits,
    };
    into[..count].copy_from_slice(&rest[..count]);
    count
}
