ghost use Rattle.std.specs.Prelude.{◌≡◌};

use views::list_of::ListOf;

/// The bytes of a set's files without its manifest: the shared image, then the image of each live process in
/// rising order of their numbers.
#[derive(Drop)]
pub struct SetBytes {
    pub files: ListOf<ListOf<u8>>,
}

impl SetBytes {
    /// The set of these files.
    pub fn of_files(files: ListOf<ListOf<u8>>) -> SetBytes
        ensures { result.files ≡ files }
    {
        SetBytes { files }
    }
}
