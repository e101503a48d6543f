//! From an automaton's file to its C tables.
ghost use Rattle.std.specs.Prelude.{◌≡◌, ◌≤◌, true, IfOk};
ghost use Rattle.rv_text.specs.Readings.{Gives};
ghost use Rattle.rv_bind.specs.Outcomes.{ReadsOutcome, of_file};
ghost use Rattle.rv_bind.specs.Possible.{MayCome};
ghost use Rattle.rv_header.specs.Naming.{is_header_name};
ghost use Rattle.rv_stream.specs.inner.Faults.{IsOutcome};
ghost use Rattle.rv_tool.specs.HeaderFiles.{header_of_text, header_in};
ghost use Rattle.rv_tool.specs.Possible.{MayHeader};

use rv_bind::{BindFault, read_file, refused};
use rv_dot::read_dot;
use rv_header::write_header;
use rv_io::Store;
use rv_text::Refused;
use std::alloc::Global;

/// The C tables of an automaton file's text.
fn header_of_text(alloc: Global, name: &str, bytes: &[u8]) -> Result<Vec<u8>, Refused>
    requires { is_header_name name.now ≡ true }
    ensures { Gives (λ text. text.items) result (header_of_text name.now bytes.now) }
{
    let automaton = read_dot(alloc, bytes)?;
    write_header(alloc, name.as_bytes(), &automaton)
}

/// The same, with the file in its fault.
#[tactic(auto, using(crate::proofs::NumberLemmas::header_numbered, rv_stream::proofs::NumberLemmas::fault_tells))]
fn named_header(alloc: Global, name: &str, file: &str, bytes: &[u8]) -> Result<Vec<u8>, BindFault>
    requires { is_header_name name.now ≡ true }
    ensures { IsOutcome (λ text. text.items) result (of_file file.now (header_of_text name.now bytes.now)) }
{
    match header_of_text(alloc, name, bytes) {
        Ok(text) => Ok(text),
        Err(fault) => Err(refused(alloc, file, fault)),
    }
}

/// The C tables of a file.
#[tactic(auto, using(rv_bind::proofs::OutcomeLemmas::fault_counted, crate::proofs::BlamesLemmas::header_named, crate::proofs::PossibleLemmas::header_unread, crate::proofs::PossibleLemmas::header_may))]
pub(crate) fn read_header<S: Store>(
    alloc: Global,
    store: &mut S,
    name: &str,
    file: &str,
) -> Result<Vec<u8>, BindFault>
    requires { is_header_name name.now ≡ true }
    ensures reads { ReadsOutcome (λ text. text.items) (S.files store.old) (S.files store.new) (S.faults store.old) (S.faults store.new) result (λ files. header_in files name.now file.now) }
    ensures some { MayCome (λ text. text.items) result (MayHeader name.now file.now) }
{
    let bytes = read_file(alloc, store, file)?;
    named_header(alloc, name, file, bytes.as_slice())
}
