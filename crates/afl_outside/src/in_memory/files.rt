//! A list of files, by name.
ghost use Rattle.std.specs.Prelude.{◌≡◌, ◌<◌, length, remove, None, Some, IfSome, IfNone, MatchOption};
ghost use Rattle.std.specs.List.{HoldsAt};
ghost use Rattle.afl_outside.specs.Files.{file_of, without};

use crate::in_memory::mem_file::MemFile;
use cell_values::List;

/// Where the first file of a name stands.
fn place_of(files: &List<MemFile>, name: &[u8]) -> Option<usize>
    ensures file { MatchOption result (file_of files.now name.now ≡ None)
        (λ i. (i < length files.now) × HoldsAt (λ f. (f.name ≡ name.now) × (file_of files.now name.now ≡ Some f)) files.now i) }
    ensures rest { MatchOption result (without files.now name.now ≡ files.now) (λ i. without files.now name.now ≡ remove files.now i) }
{
    for (i, file) in files.as_slice().iter().enumerate() {
        if file.name.as_slice() == name {
            return Some(i);
        }
    }
    None
}

/// Takes the first file of a name out.
pub(crate) fn take_file(files: &mut List<MemFile>, name: &[u8]) -> Option<MemFile>
    ensures file { result ≡ file_of files.old name.now }
    ensures named { IfSome result (λ f. f.name ≡ name.now) }
    ensures rest { files.new ≡ without files.old name.now }
    ensures none { IfNone result (files.new ≡ files.old) }
{
    let place = place_of(files, name)?;
    Some(files.remove(place))
}
