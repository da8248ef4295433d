// Files that are opened by name and read to their end.
ghost use Rattle.std.specs.Prelude.{◌≡◌, ℕ, List};
ghost use Rattle.std.specs.declared.option.Option.{Option};
ghost use Rattle.std.specs.Io.{ReadsAtMost};
ghost use Rattle.std.specs.Io.KnownBytes.{ReadConsumes};
ghost use Rattle.cf_outside.specs.Causes.{HasCause, HasOpenCause};
ghost use Rattle.cf_outside.specs.Files.{File, Notes, Opens};

use thiserror::Error;

/// A device has failed.
#[derive(Clone, Copy, Debug, PartialEq, Eq, Error)]
#[error("the device has failed")]
pub struct Failed;

/// Why a file was not opened.
#[derive(Clone, Copy, Debug, PartialEq, Eq, Error)]
pub enum OpenFault {
    /// The name has no file. This is no fault of the device.
    #[error("no file has that name")]
    Missing,
    /// The device has failed.
    #[error("the device has failed")]
    Failed,
    /// Out of memory, which is no fault of the device.
    #[error("out of memory")]
    Memory,
}

/// Files by name, of which one at a time is open.
pub trait Shelf {
    /// The files by name, where the shelf tells them.
    ghost files: { Self → Option (List File) };

    /// What is left of the opened file, where the shelf tells it.
    ghost rest: { Self → Option (List ℕ) };

    /// How many bytes each call of `read` has moved that did not fail, the oldest first, where the shelf tells it.
    ghost moved: { Self → Option (List ℕ) };

    /// How often the device has failed. The count stops at 2^64 - 1.
    ghost faults: { Self → ℕ };

    /// Opens the file of that name at its first byte. After a refusal the file that was open stays
    /// open.
    fn open(&mut self, name: &str) -> Result<(), OpenFault>
        ensures files { files self.new ≡ files self.old }
        ensures opens { Opens (files self.old) name.now (rest self.old) (rest self.new) result }
        ensures noted { moved self.new ≡ moved self.old }
        ensures cause { HasOpenCause (faults self.old) (faults self.new) result };

    /// Moves bytes of the opened file to the front of the buffer, and answers how many. An answer
    /// of 0 into a buffer that isn't empty is the end of the file.
    fn read(&mut self, buf: &mut [u8]) -> Result<usize, Failed>
        ensures files { files self.new ≡ files self.old }
        ensures bound { ReadsAtMost result buf.new }
        ensures bytes { ReadConsumes (rest self.old) (rest self.new) result buf.new }
        ensures noted { Notes (moved self.old) (moved self.new) result }
        ensures cause { HasCause (faults self.old) (faults self.new) result };
}
