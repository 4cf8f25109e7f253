// The files of the current folder.

ghost use Rattle.std.specs.Prelude.{◌≡◌, ◌≤◌, length, IfOk};

use crate::outside::{Failed, Shelf};
use std::alloc::Global;
use std::io::{Read, Seek, SeekFrom, Write};
use std::marker::Model;
use std::rt::Files;
use std::{fs, io};

/// A file that is kept open between calls, and its name.
#[derive(Drop)]
struct Kept<R: Files> {
    name: Vec<u8>,
    file: R::File,
}

/// The files of the current folder, with names as the system takes them. It tells nothing of what
/// they hold. One count, for all names, rises at each failure.
///
/// The file that was read last is kept open, and each that was written, so that calls that follow one
/// another open none. No bytes are kept: what a call reads and writes goes over to the system within
/// the call. Where there is no memory to keep a file, it is opened again.
#[derive(Drop)]
pub struct DirShelf<'a, R: Files> {
    rt: &'a R,
    alloc: Global,
    faults: u64,
    read: Option<Kept<R>>,
    written: Vec<Kept<R>>,
}

impl<'a, R: Files> Model for DirShelf<'a, R> {
    ghost use Rattle.std.specs.Prelude.{ℕ};

    ghost Value = { ℕ };

    ghost view = { λ s. s.faults };
}

impl<'a, R: Files> DirShelf<'a, R> {
    ghost use Rattle.shelf_core.specs.Plan.{raised};

    pub fn new(alloc: Global, rt: &'a R) -> DirShelf<'a, R>
        ensures { result ≡ 0 }
    {
        DirShelf {
            rt,
            alloc,
            faults: 0,
            read: None,
            written: Vec::new(alloc),
        }
    }

    fn fault(&mut self) -> Failed
        ensures raised { self.new ≡ raised self.old }
        ensures more { self.old ≤ self.new }
    {
        self.faults = self.faults.saturating_add(1);
        Failed
    }

    // Reads of a name, by the file that is kept where it is that name's.
    fn read_named(&mut self, name: &str, at: u64, into: &mut [u8]) -> io::Result<usize>
        ensures bound { IfOk result (λ n. n ≤ length into.new) }
        ensures same { self.new ≡ self.old }
    {
        if let Some(kept) = &mut self.read {
            if kept.name.as_slice() == name.as_bytes() {
                return read_file(&mut kept.file, at, into);
            }
        }
        let mut file = fs::open(self.rt, name)?;
        let read = read_file(&mut file, at, into);
        self.read = keep(self.alloc, name, file);
        read
    }

    // Makes a name hold nothing, and keeps its file.
    fn begin_named(&mut self, name: &str) -> io::Result<()>
        ensures same { self.new ≡ self.old }
    {
        self.close(name);
        let file = fs::create(self.rt, name)?;
        self.keep_written(name, file);
        Ok(())
    }

    // Adds bytes to a name, by the file that is kept of it, if there is one.
    fn append_named(&mut self, name: &str, bytes: &[u8]) -> io::Result<()>
        ensures same { self.new ≡ self.old }
    {
        for kept in &mut self.written {
            if kept.name.as_slice() == name.as_bytes() {
                return kept.file.write_all(bytes);
            }
        }
        let mut file = fs::OpenOptions::new()
            .append(true)
            .create(true)
            .open(self.rt, name)?;
        let written = file.write_all(bytes);
        self.keep_written(name, file);
        written
    }

    fn keep_written(&mut self, name: &str, file: R::File)
        ensures same { self.new ≡ self.old }
    {
        if let Some(kept) = keep(self.alloc, name, file) {
            // Where there is no room for it, it is opened again.
            let _kept = self.written.push(kept);
        }
    }

    // Closes what is kept of a name that was written.
    fn close(&mut self, name: &str)
        ensures same { self.new ≡ self.old }
    {
        let bytes = name.as_bytes();
        let place = self
            .written
            .iter()
            .position(|kept| kept.name.as_slice() == bytes);
        if let Some(place) = place {
            self.written.swap_remove(place);
        }
    }
}

// A file under its name, if there is memory for the name.
fn keep<R: Files>(alloc: Global, name: &str, file: R::File) -> Option<Kept<R>> {
    match Vec::from_slice(alloc, name.as_bytes()) {
        Ok(name) => Some(Kept { name, file }),
        Err(_) => None,
    }
}

impl<'a, R: Files> Shelf for DirShelf<'a, R> {
    ghost use Rattle.std.specs.Prelude.{false, None};

    ghost tells = { λ s. false };

    ghost held = { λ s name. None };

    ghost read_faults = { λ s name. s };

    ghost write_faults = { λ s name. s };

    ghost made = { λ s. 0 };

    fn read_at(&mut self, name: &str, at: u64, into: &mut [u8]) -> Result<usize, Failed> {
        match self.read_named(name, at, into) {
            Ok(n) => Ok(n),
            Err(_) => Err(self.fault()),
        }
    }

    fn begin(&mut self, name: &str) -> Result<(), Failed> {
        match self.begin_named(name) {
            Ok(()) => Ok(()),
            Err(_) => Err(self.fault()),
        }
    }

    fn append(&mut self, name: &str, bytes: &[u8]) -> Result<(), Failed> {
        match self.append_named(name, bytes) {
            Ok(()) => Ok(()),
            Err(_) => Err(self.fault()),
        }
    }
}

fn read_file<F: Read + Seek>(file: &mut F, at: u64, into: &mut [u8]) -> io::Result<usize>
    ensures { IfOk result (λ n. n ≤ length into.new) }
{
    file.seek(SeekFrom::Start(at))?;
    file.read(into)
}
