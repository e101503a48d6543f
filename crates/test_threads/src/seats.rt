//! The seats of a board, one for each of its numbers.
ghost use Rattle.std.specs.Prelude.{◌≡◌, IfOk, All};

use rv_board::{Board, Seat};
use std::alloc::{AllocError, Global};

/// Seats of the numbers 66 down to 1, one each, which have looked. The seat that they are split from keeps its own.
pub fn split_all(alloc: Global, board: &Board, seat: &mut Seat) -> Result<Vec<Seat>, AllocError>
    requires board { seat.old.board ≡ board.now }
    requires range { (seat.old.part.number ≡ 0) × (seat.old.part.end ≡ 67) }
    ensures same { seat.new.board ≡ board.now }
    ensures seats { IfOk result (λ seats. All (λ s. s.board ≡ board.now) seats.items) }
{
    let mut seats = Vec::new(alloc);
    for above in 0..66 {
        let mut new = board.split(seat, 66 - above);
        board.look(&mut new);
        seats.push(new)?;
    }
    Ok(seats)
}

/// Joins them all.
pub fn join_all(board: &Board, seat: &mut Seat, seats: Vec<Seat>)
    requires board { seat.old.board ≡ board.now }
    requires seats { All (λ s. s.board ≡ board.now) seats.items }
    ensures { seat.new.board ≡ board.now }
{
    for from in seats {
        board.join(seat, from);
    }
}
