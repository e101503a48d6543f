//! Reading the files that bindings name, with the file in each fault.
ghost use Rattle.std.specs.Prelude.{◌≡◌, ◌≤◌, IfOk, IfErr, length};
ghost use Rattle.rv_bind.specs.FilePieces.{FailsAs, IsFilePiece};
ghost use Rattle.rv_bind.specs.inner.LineReads.{InLine};
ghost use Rattle.rv_bind.specs.Outcomes.{ReadsOutcome, IsFaultIn, accepted, front_named, of_name, text_front};
ghost use Rattle.rv_bind.specs.Bound.{compiled_in, compiled_by};
ghost use Rattle.rv_bind.specs.Possible.{IsUnread, MayCome, MayFind};
ghost use Rattle.rv_bind.specs.Compiling.{Compiles};

use crate::compile::{Compiled, compile};
use crate::fault::{BindFault, LineFault};
use crate::limits::TEXT_LIMIT;
use rv_io::{ReadError, Store};
use rv_model::{Name, SpecKind};
use rv_text::{Refusal, Refused};
use std::alloc::Global;

/// The bytes of a file that is refused past its first 1,048,576 bytes. Only up to one byte behind these are they the
/// file's. It is unread where it is missing or a read failed.
#[tactic(auto, using(crate::proofs::ReachedLemmas::unread_named), unfolding(crate::specs::Outcomes::text_front))]
pub fn read_file<S: Store>(alloc: Global, store: &mut S, name: &str) -> Result<Vec<u8>, BindFault>
    ensures reads { ReadsOutcome (λ text. text_front text.items) (S.files store.old) (S.files store.new) (S.faults store.old) (S.faults store.new) result (λ files. front_named files name.now) }
    ensures unread { IfErr result (IsUnread name.now) }
{
    match store.read_short(alloc, name, TEXT_LIMIT) {
        Ok(text) => Ok(text),
        Err(ReadError::Memory) => Err(BindFault::Memory),
        Err(_) => Err(unread(alloc, name)),
    }
}

/// Reads a piece of a file, from the offset `place` on, into the front of the buffer, and gives its length. That is 0
/// only at the end of the file, or where the buffer is empty.
#[tactic(auto, using(crate::proofs::ReachedLemmas::unread_named))]
pub fn fetch<S: Store>(
    alloc: Global,
    store: &mut S,
    file: &str,
    place: u64,
    buffer: &mut [u8],
) -> Result<usize, BindFault>
    ensures room { IfOk result (λ count. count ≤ length buffer.old) }
    ensures len { length buffer.new ≡ length buffer.old }
    ensures piece { IfOk result (λ count. IsFilePiece (S.files store.old) file.now place buffer.old buffer.new count) }
    ensures unread { IfErr result (IsUnread file.now) }
    ensures fails { FailsAs (S.files store.old) (S.files store.new) (S.faults store.old) (S.faults store.new) result (λ files. of_name files file.now accepted) }
{
    match store.piece(alloc, file, place, buffer) {
        Ok(count) => Ok(count),
        Err(ReadError::Memory) => Err(BindFault::Memory),
        Err(_) => Err(unread(alloc, file)),
    }
}

fn unread(alloc: Global, name: &str) -> BindFault
    ensures { IsUnread name.now result }
{
    match Name::new(alloc, name.as_bytes()) {
        Ok(file) => BindFault::Unread { file },
        Err(_) => BindFault::Memory,
    }
}

/// The fault that is a reader's refusal of the file `name`, or want of memory.
pub fn refused(alloc: Global, name: &str, fault: Refused) -> BindFault
    ensures { IsFaultIn name.now fault result }
{
    match fault {
        Refused::Memory => BindFault::Memory,
        Refused::Because(refusal) => match Name::new(alloc, name.as_bytes()) {
            Ok(file) => BindFault::Refused { file, refusal },
            Err(_) => BindFault::Memory,
        },
    }
}

/// What came of a line, with the file and the line put into its fault.
pub(crate) fn in_line(
    alloc: Global,
    name: &str,
    line: u32,
    done: Result<(), LineFault>,
) -> Result<(), BindFault>
    ensures { InLine name.now line done result }
{
    match done {
        Ok(()) => Ok(()),
        Err(LineFault::Number(number)) => Err(refused(
            alloc,
            name,
            Refused::Because(Refusal { number, line }),
        )),
        Err(LineFault::Memory) => Err(BindFault::Memory),
    }
}

/// The specification in a file, with its table. A refusal or an unread file is named by the specification's file.
#[tactic(auto, using(crate::proofs::OutcomeLemmas::fault_counted, crate::proofs::ReachedLemmas::spec_named, crate::proofs::ReachedLemmas::file_named, crate::proofs::PossibleLemmas::spec_unread, crate::proofs::PossibleLemmas::spec_may, crate::proofs::PossibleLemmas::spec_refused))]
pub(crate) fn read_spec<S: Store>(
    alloc: Global,
    store: &mut S,
    kind: SpecKind,
    file: &str,
) -> Result<Compiled, BindFault>
    ensures reads { ReadsOutcome (λ compiled. compiled) (S.files store.old) (S.files store.new) (S.faults store.old) (S.faults store.new) result (λ files. compiled_in files kind file.now) }
    ensures some { MayCome (λ compiled. compiled) result (MayFind (λ text. compiled_by text kind file.now)) }
    ensures compiles { IfOk result (λ compiled. Compiles compiled.spec compiled.table) }
{
    let text = read_file(alloc, store, file)?;
    match compile(alloc, kind, text.as_slice()) {
        Ok(compiled) => Ok(compiled),
        Err(fault) => Err(refused(alloc, file, fault)),
    }
}
