//! The files of the system: the trusted edge, so as little as can be.
ghost use Rattle.std.specs.Prelude.{◌≡◌, ◌≤◌, ◌+◌, ◌⊎◌, None, take, length, IsOk, IsErrOf, IfOk, IfSome, OnErr};
ghost use Rattle.rv_io.specs.Calls.{risen};
ghost use Rattle.rv_io.specs.Files.{Reads, ReadsShort};
ghost use Rattle.rv_io.specs.Pieces.{ReadsPiece};
ghost use Rattle.rv_io.specs.inner.Reading.{ReadsMore};

use crate::{READ_LIMIT, ReadError, Store};
use std::alloc::Global;
use std::fs::File;
use std::io::{ErrorKind, Read};
use std::marker::Model;
use std::rt::Files;

/// How many bytes one read asks for.
const READ_PIECE: usize = 65_536;

/// A file that is read forward, and how many of its bytes were read.
#[derive(Drop)]
struct OpenFile<F> {
    name: String,
    file: F,
    place: u64,
    buffer: Vec<u8>,
}

/// It tells nothing of its files, and is seen as its count of faults. The file of its last piece stays open.
#[derive(Drop)]
pub struct Disk<'a, R: Files> {
    rt: &'a R,
    faults: u64,
    open: Option<OpenFile<R::File>>,
}

impl<'a, R: Files> Model for Disk<'a, R> {
    ghost use Rattle.std.specs.Prelude.{ℕ};

    ghost Value = { ℕ };

    ghost view = { λ d. d.faults };
}

impl<'a, R: Files> Disk<'a, R> {
    pub fn new(rt: &'a R) -> Disk<'a, R>
        ensures { result ≡ 0 }
    {
        Disk {
            rt,
            faults: 0,
            open: None,
        }
    }
}

/// One turn: a piece of the file goes to the end of the text.
fn read_some<F: Read>(
    file: &mut F,
    buffer: &mut [u8],
    text: &mut Vec<u8>,
) -> Result<usize, ReadError>
    ensures { IfOk result (ReadsMore (F.remaining file.old) (F.remaining file.new) text.old.items text.new.items (length buffer.old)) }
{
    let Ok(count) = file.read(buffer) else {
        return Err(ReadError::Failed);
    };
    if text.extend_from_slice(&buffer[..count]).is_err() {
        return Err(ReadError::Memory);
    }
    Ok(count)
}

/// All of what is left to read, at most so many bytes of it. A turn that takes none is its end.
fn read_front<F: Read>(file: &mut F, alloc: Global, most: usize) -> Result<Vec<u8>, ReadError>
    ensures bound { IfOk result (λ text. length text.items ≤ most) }
    ensures whole { IfOk result (λ text. IfSome (F.remaining file.old) (λ left. text.items ≡ take most left)) }
{
    let mut text = Vec::new(alloc);
    let mut buffer = [0u8; READ_PIECE];
    while text.len() < most {
        let room = buffer.len().min(most - text.len());
        if read_some(file, &mut buffer[..room], &mut text)? == 0 {
            return Ok(text);
        }
    }
    Ok(text)
}

/// Opens a file.
fn open<R: Files>(rt: &R, name: &str) -> Result<R::File, ReadError>
    ensures { ¬ (IsErrOf result ReadError.Memory) }
{
    match File::open(rt, name) {
        Ok(file) => Ok(file),
        Err(error) if error.kind() == ErrorKind::NotFound => Err(ReadError::NoFile),
        Err(_) => Err(ReadError::Failed),
    }
}

/// The next bytes go to the front of the buffer. None come at the end of the file.
fn next_bytes<F: Read>(file: &mut F, buffer: &mut [u8]) -> Result<usize, ReadError>
    ensures { IfOk result (λ count. count ≤ length buffer.new) }
{
    match file.read(buffer) {
        Ok(count) => Ok(count),
        Err(_) => Err(ReadError::Failed),
    }
}

impl<F: Read> OpenFile<F> {
    /// The next bytes of the file, at most so many.
    fn next(&mut self, most: usize) -> Result<&[u8], ReadError>
        ensures { IfOk result (λ bytes. length bytes.now ≤ most) }
    {
        let buffer = self.buffer.as_mut_slice();
        let room = buffer.len().min(most);
        let front = &mut buffer[..room];
        let count = next_bytes(&mut self.file, front)?;
        self.place = self.place.saturating_add(count as u64);
        Ok(&front[..count])
    }

    /// Reads forward to a place, or to the end of the file.
    fn skip_to(&mut self, place: u64) -> Result<(), ReadError> {
        let mut left = place.saturating_sub(self.place);
        while left > 0 {
            let most = left.min(READ_PIECE as u64) as usize;
            let count = self.next(most)?.len();
            if count == 0 {
                return Ok(());
            }
            left -= count as u64;
        }
        Ok(())
    }
}

impl<R: Files> Disk<'_, R> {
    /// The file of the name, at or before the place: the one that is open, or it is opened anew.
    fn opened(
        &mut self,
        alloc: Global,
        name: &str,
        from: u64,
    ) -> Result<OpenFile<R::File>, ReadError>
        ensures { self.new ≡ self.old }
    {
        match self.open.take() {
            Some(open) if open.place <= from && open.name.as_str() == name => return Ok(open),
            _ => {}
        }
        let file = open(self.rt, name)?;
        let Ok(name) = String::from_str(alloc, name) else {
            return Err(ReadError::Memory);
        };
        let Ok(buffer) = vec![in alloc; 0u8; READ_PIECE] else {
            return Err(ReadError::Memory);
        };
        Ok(OpenFile {
            name,
            file,
            place: 0,
            buffer,
        })
    }

    /// Reads a piece, before a fault is counted.
    fn read_piece(
        &mut self,
        alloc: Global,
        name: &str,
        from: u64,
        into: &mut [u8],
    ) -> Result<usize, ReadError>
        ensures same { self.new ≡ self.old }
        ensures room { IfOk result (λ count. count ≤ length into.old) }
        ensures len { length into.new ≡ length into.old }
        ensures err { OnErr result (into.new ≡ into.old) }
    {
        let mut file = self.opened(alloc, name, from)?;
        file.skip_to(from)?;
        let bytes = file.next(into.len())?;
        let count = bytes.len();
        into[..count].copy_from_slice(bytes);
        self.open = Some(file);
        Ok(count)
    }
}

impl<R: Files> Disk<'_, R> {
    /// The bytes of a file, at most so many.
    fn read_most(&mut self, alloc: Global, name: &str, most: usize) -> Result<Vec<u8>, ReadError>
        ensures read { Reads None name.now self.old self.new result }
        ensures bound { IfOk result (λ bytes. length bytes.items ≤ most) }
        ensures same { IsOk result ⊎ IsErrOf result ReadError.Memory → self.new ≡ self.old }
        ensures fault { IsErrOf result ReadError.NoFile ⊎ IsErrOf result ReadError.Failed → self.new ≡ risen self.old }
    {
        let fault = match open(self.rt, name) {
            Ok(mut file) => match read_front(&mut file, alloc, most) {
                Err(fault) if fault != ReadError::Memory => fault,
                answer => return answer,
            },
            Err(fault) => fault,
        };
        self.faults = self.faults.saturating_add(1);
        Err(fault)
    }
}

impl<R: Files> Store for Disk<'_, R> {
    ghost files = { λ _. None };

    ghost faults = { λ d. d };

    fn read(&mut self, alloc: Global, name: &str) -> Result<Vec<u8>, ReadError>
        ensures read { Reads None name.now self.old self.new result }
        ensures bound { IfOk result (λ bytes. length bytes.items ≤ READ_LIMIT) }
        ensures same { IsOk result ⊎ IsErrOf result ReadError.Memory → self.new ≡ self.old }
        ensures fault { IsErrOf result ReadError.NoFile ⊎ IsErrOf result ReadError.Failed → self.new ≡ risen self.old }
    {
        self.read_most(alloc, name, READ_LIMIT)
    }

    fn read_short(&mut self, alloc: Global, name: &str, most: usize) -> Result<Vec<u8>, ReadError>
        ensures read { ReadsShort most None name.now self.old self.new result }
        ensures bound { IfOk result (λ bytes. length bytes.items ≤ most + 1) }
        ensures same { IsOk result ⊎ IsErrOf result ReadError.Memory → self.new ≡ self.old }
        ensures fault { IsErrOf result ReadError.NoFile ⊎ IsErrOf result ReadError.Failed → self.new ≡ risen self.old }
    {
        self.read_most(alloc, name, most.saturating_add(1))
    }

    fn piece(
        &mut self,
        alloc: Global,
        name: &str,
        from: u64,
        into: &mut [u8],
    ) -> Result<usize, ReadError>
        ensures piece { ReadsPiece None name.now from into.old into.new self.old self.new result }
        ensures same { IsOk result ⊎ IsErrOf result ReadError.Memory → self.new ≡ self.old }
        ensures fault { IsErrOf result ReadError.NoFile ⊎ IsErrOf result ReadError.Failed → self.new ≡ risen self.old }
    {
        match self.read_piece(alloc, name, from, into) {
            Err(fault) if fault != ReadError::Memory => {
                self.faults = self.faults.saturating_add(1);
                Err(fault)
            }
            answer => answer,
        }
    }
}
