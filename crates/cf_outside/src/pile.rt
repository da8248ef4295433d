// Files in memory, of which one is open.
ghost use Rattle.std.specs.Prelude.{◌≡◌, ◌<◌, ◌≤◌, ◌+◌, ◌-◌, [], ◌∷◌, ◌++◌, drop, take, min, length, true, false, slice_get, MatchOption, OnOk, OnErr, IfOk, IfSome, Some, None};
ghost use Rattle.std.specs.Option.{option_map};
ghost use Rattle.cf_outside.specs.Files.{file_named};

use crate::Memory;
use std::alloc::Global;
use std::marker::Model;

// A file in memory.
#[derive(Drop)]
struct Stored {
    name: String,
    bytes: Vec<u8>,
}

impl Model for Stored {
    ghost use Rattle.std.specs.Prelude.{string_bytes};
    ghost use Rattle.cf_outside.specs.Files.{File};

    ghost Value = { File };

    ghost view = { λ f. record { name = string_bytes f.name; bytes = f.bytes.items } };
}

impl Stored {
    fn new(alloc: Global, name: &str, bytes: &[u8]) -> Result<Self, Memory>
        ensures { IfOk result (λ file. file ≡ record { name = name.now; bytes = bytes.now }) }
    {
        Ok(Stored {
            name: String::from_str(alloc, name)?,
            bytes: bytes.to_vec(alloc)?,
        })
    }

    fn name(&self) -> &str
        ensures { result.now ≡ self.now.name }
    {
        self.name.as_str()
    }

    fn bytes(&self) -> &[u8]
        ensures { result.now ≡ self.now.bytes }
    {
        &self.bytes
    }
}

// The place of the first file of that name.
fn place_of(files: &[Stored], name: &str) -> Option<usize>
    ensures found { MatchOption result (file_named files.now name.now ≡ None)
        (λ place. file_named files.now name.now ≡ option_map (λ file. file.bytes) (slice_get files.now place)) }
    ensures place { IfSome result (λ place. place < length files.now) }
{
    for place in 0..files.len() {
        let file = &files[place];
        if file.name() == name {
            return Some(place);
        }
    }
    None
}

// Copies a part of the bytes from `at` on to the front of the buffer, at most `most`.
fn copy_some(bytes: &[u8], at: usize, most: usize, buf: &mut [u8]) -> usize
    requires { 0 < most }
    ensures moved { result ≡ min most (min (length buf.old) (length bytes.now - at)) }
    ensures taken { drop at bytes.now ≡ take result buf.new ++ drop (at + result) bytes.now }
    ensures end { result ≡ 0 → 0 < length buf.new → drop (at + result) bytes.now ≡ [] }
{
    if at >= bytes.len() {
        return 0;
    }
    let count = most.min(buf.len()).min(bytes.len() - at);
    buf[..count].copy_from_slice(&bytes[at..at + count]);
    count
}

// Files by name, of which one is open.
#[derive(Drop)]
pub(crate) struct Pile {
    files: Vec<Stored>,
    opened: usize,
    at: usize,
}

impl Model for Pile {
    ghost use Rattle.std.specs.Prelude.{slice_get, length, ◌≤◌};
    ghost use Rattle.cf_outside.specs.Files.{PileValue, rest_from};

    ghost Value = { PileValue };

    ghost view = { λ p. record { files = p.files.items; rest = rest_from (slice_get p.files.items p.opened) p.at } };

    ghost invariant = { λ p. p.opened ≤ length p.files.items };
}

impl Pile {
    pub(crate) fn new(alloc: Global) -> Self
        ensures files { result.files ≡ [] }
        ensures rest { result.rest ≡ [] }
    {
        Pile {
            files: Vec::new(alloc),
            opened: 0,
            at: 0,
        }
    }

    // Gives the name that file.
    pub(crate) fn put(&mut self, alloc: Global, name: &str, bytes: &[u8]) -> Result<(), Memory>
        ensures ok { OnOk result (self.new.files ≡ record { name = name.now; bytes = bytes.now } ∷ self.old.files) }
        ensures err { OnErr result (self.new.files ≡ self.old.files) }
        ensures rest { self.new.rest ≡ self.old.rest }
    {
        let file = Stored::new(alloc, name, bytes)?;
        self.files.insert(0, file)?;
        self.opened += 1;
        Ok(())
    }

    // Opens the newest file of that name, and tells whether there is one.
    pub(crate) fn open(&mut self, name: &str) -> bool
        ensures files { self.new.files ≡ self.old.files }
        ensures missing { result ≡ false → (file_named self.old.files name.now ≡ None) × (self.new.rest ≡ self.old.rest) }
        ensures opened { result ≡ true → file_named self.old.files name.now ≡ Some self.new.rest }
    {
        match place_of(&self.files, name) {
            Some(place) => {
                self.opened = place;
                self.at = 0;
                true
            }
            None => false,
        }
    }

    // Moves bytes of the opened file to the front of the buffer, at most `most`, and tells how many.
    pub(crate) fn read(&mut self, most: usize, buf: &mut [u8]) -> usize
        requires { 0 < most }
        ensures files { self.new.files ≡ self.old.files }
        ensures moved { result ≡ min most (min (length buf.old) (length self.old.rest)) }
        ensures taken { self.old.rest ≡ take result buf.new ++ self.new.rest }
        ensures end { result ≡ 0 → 0 < length buf.new → self.new.rest ≡ [] }
    {
        let Some(file) = self.files.get(self.opened) else {
            return 0;
        };
        let count = copy_some(file.bytes(), self.at, most, buf);
        self.at += count;
        count
    }
}
