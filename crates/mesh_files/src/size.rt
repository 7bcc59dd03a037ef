// The sizes at which a file is read.
ghost use Rattle.std.specs.Prelude.{◌≡◌, ◌≤◌, Some, IfOk, IfErr};
ghost use Rattle.mesh_files.specs.Sizes.{IsSizeStop};

use crate::stop::Stop;
use mb_base::Counted;

/// The size of a file in bytes, where there is one and it is no longer than the most bytes. It stops with `Missing` where there is none, and
/// with `Over` where it is longer.
pub fn size_within(size: Option<u64>, most: u64) -> Result<usize, Stop>
    ensures size { IfOk result (λ n. (size ≡ Some n) × (n ≤ most)) }
    ensures stop { IfErr result (IsSizeStop most size) }
{
    let Some(size) = size else {
        return Err(Stop::Missing);
    };
    if size > most {
        return Err(Stop::Over {
            what: Counted::FileBytes,
            seen: size,
        });
    }
    Ok(size as usize)
}
