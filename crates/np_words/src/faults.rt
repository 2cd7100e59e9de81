//! Why words give no job.
ghost use Rattle.std.specs.Prelude.{◌≡◌, ◌≢◌};
ghost use Rattle.clap.specs.Words.{kind_of};

use clap::Error as ClapError;
use clap::error::ErrorKind;
use thiserror::Error;

/// Why words give no job.
#[derive(Clone, Copy, Debug, PartialEq, Eq, Drop, Error)]
pub enum WordsFault {
    /// The words ask for nothing that there is, or for help.
    #[error("bad command line")]
    Usage,
    /// Memory ran out.
    #[error("out of memory")]
    Memory,
}

/// The fault of words that `clap` refuses with this error: `Memory` where it tells that memory ran out, else `Usage`.
pub fn fault_from(error: &ClapError) -> WordsFault
    ensures usage { result ≡ WordsFault.Usage → kind_of error.now ≢ ErrorKind.OutOfMemory }
    ensures memory { result ≡ WordsFault.Memory → kind_of error.now ≡ ErrorKind.OutOfMemory }
{
    if error.kind() == ErrorKind::OutOfMemory {
        WordsFault::Memory
    } else {
        WordsFault::Usage
    }
}
