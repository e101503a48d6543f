//! The generated input as a store, so that it is read as any files are.
ghost use Rattle.std.specs.Prelude.{◌≡◌, IfOk, Some, take, option_copied};
ghost use Rattle.rv_io.specs.Files.{front_read};
ghost use Rattle.rv_tool.specs.Loaded.{named_files, generated_files};

use rv_gen::{Generated, generate};
use rv_io::{READ_LIMIT, ReadError, Store, piece_of};
use std::alloc::{AllocError, Global};

/// The name of the bindings.
pub(crate) const BINDINGS: &str = "gen.rv";

/// The name of the trace.
pub(crate) const TRACE: &str = "gen.txt";

/// The generated files. It has no faults.
#[derive(Drop)]
pub(crate) struct Loaded {
    files: Generated,
}

/// The front of the bytes, at most so many.
fn cut(bytes: &[u8], most: usize) -> &[u8]
    ensures { result.now ≡ take most bytes.now }
{
    if bytes.len() <= most {
        bytes
    } else {
        &bytes[..most]
    }
}

/// The front of the bytes that one read gives.
#[tactic(auto, unfolding(rv_io::specs::Files::front_read))]
fn front_read(bytes: &[u8]) -> &[u8]
    ensures { result.now ≡ front_read bytes.now }
{
    cut(bytes, READ_LIMIT)
}

impl Loaded {
    /// The bytes of a name.
    fn text(&self, name: &str) -> Option<&[u8]>
        ensures { option_copied result ≡ named_files self.now.files.bindings.items self.now.files.wip.items self.now.files.wwnr.items self.now.files.trace.items name.now }
    {
        if name == BINDINGS {
            Some(self.files.bindings.as_slice())
        } else if name == "wip.dot" {
            Some(self.files.wip.as_slice())
        } else if name == "wwnr.dot" {
            Some(self.files.wwnr.as_slice())
        } else if name == TRACE {
            Some(self.files.trace.as_slice())
        } else {
            None
        }
    }
}

impl Store for Loaded {
    ghost files = { λ s. Some (named_files s.files.bindings.items s.files.wip.items s.files.wwnr.items s.files.trace.items) };

    ghost faults = { λ _. 0 };

    fn read(&mut self, alloc: Global, name: &str) -> Result<Vec<u8>, ReadError> {
        let Some(text) = self.text(name) else {
            return Err(ReadError::NoFile);
        };
        match Vec::from_slice(alloc, front_read(text)) {
            Ok(bytes) => Ok(bytes),
            Err(AllocError) => Err(ReadError::Memory),
        }
    }

    fn piece(
        &mut self,
        _alloc: Global,
        name: &str,
        from: u64,
        into: &mut [u8],
    ) -> Result<usize, ReadError> {
        match self.text(name) {
            Some(text) => Ok(piece_of(text, from, None, into)),
            None => Err(ReadError::NoFile),
        }
    }
}

/// So many blocks.
pub(crate) fn generated_store(alloc: Global, blocks: u32) -> Result<Loaded, AllocError>
    ensures { IfOk result (λ store. named_files store.files.bindings.items store.files.wip.items store.files.wwnr.items store.files.trace.items ≡ generated_files blocks) }
{
    let files = generate(alloc, blocks)?;
    Ok(Loaded { files })
}
