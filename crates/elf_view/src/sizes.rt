//! The sizes of the parts of a small object, and where they begin.

ghost use Rattle.std.specs.Prelude.{◌≡◌, ◌+◌, ◌*◌, ◌<◌, ◌≤◌, ◌^◌, length};

/// The sizes of an object's parts in bytes, in the order in which they stand after the file header.
#[derive(Clone, Copy)]
pub struct Sizes {
    pub code: u64,
    pub symbols: u64,
    pub rels: u64,
    pub records: u64,
    pub strings: u64,
}

impl Sizes {
    ghost use Rattle.elf_view.specs.Layout.{headers_at, records_at, rels_at, strings_at, symbols_at};

    pub fn symbols_at(&self) -> u64
        requires { headers_at self.now < 2 ^ 64 }
        ensures { result ≡ symbols_at self.now }
    {
        64 + self.code
    }

    pub fn rels_at(&self) -> u64
        requires { headers_at self.now < 2 ^ 64 }
        ensures { result ≡ rels_at self.now }
    {
        self.symbols_at() + self.symbols
    }

    pub fn records_at(&self) -> u64
        requires { headers_at self.now < 2 ^ 64 }
        ensures { result ≡ records_at self.now }
    {
        self.rels_at() + self.rels
    }

    pub fn strings_at(&self) -> u64
        requires { headers_at self.now < 2 ^ 64 }
        ensures { result ≡ strings_at self.now }
    {
        self.records_at() + self.records + (8 - self.records % 8) % 8
    }

    pub fn headers_at(&self) -> u64
        requires { headers_at self.now < 2 ^ 64 }
        ensures { result ≡ headers_at self.now }
    {
        self.strings_at() + self.strings + (8 - self.strings % 8) % 8
    }
}
