// A name that is there.

ghost use Rattle.std.specs.Prelude.{◌≡◌, ◌++◌, OnOk, OnErr, IfOk};
ghost use Rattle.std.specs.Str.{bytes_eq};

use crate::faults::Faults;
use std::alloc::{AllocError, Global};
use std::marker::Model;

/// A name, what it holds, and how often its reads and writes have failed.
#[derive(Drop)]
pub struct Entry {
    name: Vec<u8>,
    bytes: Vec<u8>,
    faults: Faults,
}

impl Model for Entry {
    ghost use Rattle.shelf_core.specs.File.{File};

    ghost Value = { File };

    ghost view = { λ e. record { name = e.name.items; bytes = e.bytes.items; faults = e.faults } };
}

impl Entry {
    pub fn new(
        alloc: Global,
        name: &[u8],
        bytes: Vec<u8>,
        faults: Faults,
    ) -> Result<Entry, AllocError>
        ensures { IfOk result (λ e. e ≡ record { name = name.now; bytes = bytes.items; faults = faults }) }
    {
        let name = Vec::from_slice(alloc, name)?;
        Ok(Entry {
            name,
            bytes,
            faults,
        })
    }

    pub fn is_named(&self, name: &[u8]) -> bool
        ensures { result ≡ bytes_eq self.now.name name.now }
    {
        self.name.as_slice() == name
    }

    pub fn bytes(&self) -> &[u8]
        ensures { result.now ≡ self.now.bytes }
    {
        &self.bytes
    }

    pub fn faults(&self) -> Faults
        ensures { result ≡ self.now.faults }
    {
        self.faults
    }

    pub fn set_bytes(&mut self, bytes: Vec<u8>)
        ensures { self.new ≡ record self.old { bytes = bytes.items } }
    {
        self.bytes = bytes;
    }

    pub fn add(&mut self, bytes: &[u8]) -> Result<(), AllocError>
        ensures ok { OnOk result (self.new ≡ record self.old { bytes = self.old.bytes ++ bytes.now }) }
        ensures err { OnErr result (self.new ≡ self.old) }
    {
        self.bytes.extend_from_slice(bytes)
    }

    pub fn set_faults(&mut self, faults: Faults)
        ensures { self.new ≡ record self.old { faults = faults } }
    {
        self.faults = faults;
    }
}
