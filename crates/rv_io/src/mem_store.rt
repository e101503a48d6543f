//! A store whose files are in memory, with calls that fail as they are listed.
ghost use Rattle.std.specs.Prelude.{◌≡◌, ◌≤◌, ◌↔◌, ◌∷◌, [], ◌++◌, ℕ, List, Bool, true, Some, None, take, bytes_eq, OnOk, OnErr, IfOk, IsErrOf, IsTrue, IfSome, position, false, find, option_copied};
ghost use Rattle.rv_io.specs.Calls.{is_listed};
ghost use Rattle.rv_io.specs.Files.{Reads, front_read};
ghost use Rattle.rv_io.specs.MemStores.{lookup, counted, IsReplaced};
ghost use Rattle.rv_io.specs.inner.MemStores.{Copies, CopiesPiece};
ghost use Rattle.rv_io.specs.Pieces.{ReadsPiece};

use crate::calls::Calls;
use crate::piece::piece_of;
use crate::{READ_LIMIT, ReadError, Store};
use std::alloc::{AllocError, Global};
use std::marker::Model;

/// A file, seen as its name and its bytes.
#[derive(Drop)]
struct MemFile {
    name: String,
    bytes: Vec<u8>,
}

impl Model for MemFile {
    ghost use Rattle.std.specs.Prelude.{List, ℕ, string_bytes};

    ghost Value = { List ℕ × List ℕ };

    ghost view = { λ f. (string_bytes f.name, f.bytes.items) };
}

impl MemFile {
    fn new(alloc: Global, name: &str, bytes: &[u8]) -> Result<MemFile, AllocError>
        ensures { IfOk result (λ file. file ≡ (name.now, bytes.now)) }
    {
        Ok(MemFile {
            name: String::from_str(alloc, name)?,
            bytes: Vec::from_slice(alloc, bytes)?,
        })
    }

    fn has_name(&self, name: &str) -> bool
        ensures { result ≡ bytes_eq self.now.0 name.now }
    {
        self.name.as_str() == name
    }

    fn bytes(&self) -> &[u8]
        ensures { result.now ≡ self.now.1 }
    {
        self.bytes.as_slice()
    }
}

/// The front of the bytes, at most so many.
fn cut(bytes: &[u8], most: usize) -> &[u8]
    ensures { result.now ≡ take most bytes.now }
{
    if bytes.len() <= most {
        bytes
    } else {
        &bytes[..most]
    }
}

/// What one read gives of the bytes.
#[tactic(auto, unfolding(crate::specs::Files::front_read))]
fn front_read(bytes: &[u8]) -> &[u8]
    ensures { result.now ≡ front_read bytes.now }
{
    cut(bytes, READ_LIMIT)
}

/// The place of the file of the name.
fn place_of(files: &[MemFile], name: &str) -> Option<usize>
    ensures { result ≡ position (λ file. bytes_eq file.0 name.now) files.now }
{
    files.iter().position(|file| file.has_name(name))
}

/// The file of the name.
fn held<'a>(files: &'a [MemFile], name: &str) -> Option<&'a MemFile>
    ensures { option_copied result ≡ find (λ file. bytes_eq file.0 name.now) files.now }
{
    files.iter().find(|file| file.has_name(name))
}

/// A copy of the bytes that the name has, cut after `READ_LIMIT` of them.
fn copy_of(files: &[MemFile], alloc: Global, name: &str) -> Result<Vec<u8>, ReadError>
    ensures { Copies (lookup files.now name.now) result }
{
    let Some(file) = held(files, name) else {
        return Err(ReadError::NoFile);
    };
    match Vec::from_slice(alloc, front_read(file.bytes())) {
        Ok(bytes) => Ok(bytes),
        Err(AllocError) => Err(ReadError::Memory),
    }
}

/// A piece of the bytes that the name has.
fn piece_in(
    files: &[MemFile],
    name: &str,
    from: u64,
    most: Option<usize>,
    into: &mut [u8],
) -> Result<usize, ReadError>
    requires { IfSome most (λ most. 1 ≤ most) }
    ensures piece { CopiesPiece (lookup files.now name.now) from into.old into.new result }
    ensures cut { IfOk result (λ count. IfSome most (λ most. count ≤ most)) }
{
    let Some(file) = held(files, name) else {
        return Err(ReadError::NoFile);
    };
    Ok(piece_of(file.bytes(), from, most, into))
}

/// Each name has one file. It tells its files, and fails at its listed calls alone.
#[derive(Drop)]
pub struct MemStore {
    alloc: Global,
    files: Vec<MemFile>,
    most: Option<usize>,
    calls: Calls,
}

impl Model for MemStore {
    ghost use Rattle.std.specs.Prelude.{◌≤◌, IfSome};
    ghost use Rattle.rv_io.specs.MemStores.{StoreValue};

    ghost Value = { StoreValue };

    ghost view = { λ s. record { files = s.files.items; most = s.most; calls = s.calls } };

    ghost invariant = { λ s. IfSome s.most (λ most. 1 ≤ most) };
}

impl MemStore {
    pub fn new(alloc: Global) -> MemStore
        ensures { result ≡ record { files = []; most = None; calls = record { listed = []; made = 0; faults = 0 } } }
    {
        MemStore {
            alloc,
            files: Vec::new(alloc),
            most: None,
            calls: Calls::new(alloc),
        }
    }

    /// Adds a file, in place of an older one of the name.
    pub fn add(&mut self, name: &str, bytes: &[u8]) -> Result<(), AllocError>
        ensures ok { OnOk result (IsReplaced self.old.files self.new.files name.now bytes.now) }
        ensures calls { (self.new.calls ≡ self.old.calls) × (self.new.most ≡ self.old.most) }
        ensures err { OnErr result (self.new ≡ self.old) }
    {
        let file = MemFile::new(self.alloc, name, bytes)?;
        match place_of(&self.files, name) {
            Some(place) => self.files[place] = file,
            None => self.files.push(file)?,
        }
        Ok(())
    }

    /// From now on a piece has at most so many bytes.
    pub fn cut(&mut self, most: usize)
        requires { 1 ≤ most }
        ensures { self.new ≡ record self.old { most = Some most } }
    {
        self.most = Some(most);
    }

    /// Lists a call, counted from 1: a read or a piece that has this number fails.
    pub fn fail_at(&mut self, call: u64) -> Result<(), AllocError>
        ensures ok { OnOk result (self.new ≡ record self.old { calls = record self.old.calls { listed = self.old.calls.listed ++ call ∷ [] } }) }
        ensures err { OnErr result (self.new ≡ self.old) }
    {
        self.calls.list(call)
    }
}

impl Store for MemStore {
    ghost files = { λ s. Some (lookup s.files) };

    ghost faults = { λ s. s.calls.faults };

    fn read(&mut self, alloc: Global, name: &str) -> Result<Vec<u8>, ReadError>
        ensures read { Reads (Some (lookup self.old.files)) name.now self.old.calls.faults self.new.calls.faults result }
        ensures failed { IsErrOf result ReadError.Failed ↔ IsTrue (is_listed self.old.calls) }
        ensures no_file { IsErrOf result ReadError.NoFile ↔ ((is_listed self.old.calls ≡ false) × (lookup self.old.files name.now ≡ None)) }
        ensures counted { self.new ≡ record self.old { calls = counted self.old.calls } }
    {
        if self.calls.count() {
            return Err(ReadError::Failed);
        }
        copy_of(&self.files, alloc, name)
    }

    /// The whole file, as `read` gives it.
    fn read_short(&mut self, alloc: Global, name: &str, most: usize) -> Result<Vec<u8>, ReadError>
        ensures read { Reads (Some (lookup self.old.files)) name.now self.old.calls.faults self.new.calls.faults result }
        ensures failed { IsErrOf result ReadError.Failed ↔ IsTrue (is_listed self.old.calls) }
        ensures no_file { IsErrOf result ReadError.NoFile ↔ ((is_listed self.old.calls ≡ false) × (lookup self.old.files name.now ≡ None)) }
        ensures counted { self.new ≡ record self.old { calls = counted self.old.calls } }
    {
        let _ = most;
        self.read(alloc, name)
    }

    fn piece(
        &mut self,
        _alloc: Global,
        name: &str,
        from: u64,
        into: &mut [u8],
    ) -> Result<usize, ReadError>
        ensures piece { ReadsPiece (Some (lookup self.old.files)) name.now from into.old into.new self.old.calls.faults self.new.calls.faults result }
        ensures failed { IsErrOf result ReadError.Failed ↔ IsTrue (is_listed self.old.calls) }
        ensures no_file { IsErrOf result ReadError.NoFile ↔ ((is_listed self.old.calls ≡ false) × (lookup self.old.files name.now ≡ None)) }
        ensures cut { IfOk result (λ count. IfSome self.old.most (λ most. count ≤ most)) }
        ensures counted { self.new ≡ record self.old { calls = counted self.old.calls } }
    {
        if self.calls.count() {
            return Err(ReadError::Failed);
        }
        piece_in(&self.files, name, from, self.most, into)
    }
}
