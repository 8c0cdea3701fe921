ghost use Rattle.std.specs.Prelude.{◌≡◌, ◌++◌, ◌≤◌, length, drop, option_map, IfOk, IfSome, OnOk};
ghost use Rattle.std.specs.Option.{ForSome};
ghost use Rattle.std.specs.FinMap as map;
ghost use Rattle.disk_folder.specs.Files.{contents, with_write, with_cut};
ghost use Rattle.disk_folder.specs.Crash.{CutOrNot, IsSettled, Same, Takes, Torn};
ghost use Rattle.disk_folder.specs.Faults.{HasCause};
ghost use Rattle.disk_folder.specs.Moments.{Passes};
ghost use Rattle.disk_folder.specs.SeenFolder.{SeenFolder};
ghost use Rattle.views.specs.Bytes.{read_from};

use crate::disk_fault::DiskFault;
use crate::file_name::FileName;

/// A folder of files on a disk that may crash at any moment.
///
/// Between two syncs the bytes of each written range are torn: a crash may leave any bytes there,
/// and a cut may have happened or not. Bytes outside stay. A sync that answers `Ok` settles all of
/// it: from then on a crash leaves what reads give.
///
/// What is seen of a folder has laws, which an implementation proves with it. A folder that can't say
/// what is in it, as one of the host, tells no content, and a crash may then leave anything.
pub trait Folder {
    /// What is seen of the folder at a moment.
    ghost seen: { Self → SeenFolder };

    /// The length of the file in bytes, or `None` for a file that is not there.
    fn len(&mut self, name: FileName) -> Result<Option<u64>, DiskFault>
        ensures told { IfOk result (λ len. IfSome (seen self.old).files
            (λ files. len ≡ option_map length (map.get files name))) }

        ensures same { (seen self.new).files ≡ (seen self.old).files }
        ensures crash { Passes Same (seen self.old) (seen self.new) }
        ensures cause { HasCause result (seen self.old).faults (seen self.new).faults }
        ensures want { result ≡ Err DiskFault.Memory → (seen self.old).may_want };

    /// Reads from an offset in bytes, and answers how many bytes were placed at the front of `buf`:
    /// fewer than its length only at the file's end. Of a file that is not there it places none.
    /// After `Failed` the buffer may hold any bytes.
    fn read_at(&mut self, name: FileName, at: u64, buf: &mut [u8]) -> Result<usize, DiskFault>
        ensures fits { IfOk result (λ n. n ≤ length buf.old) }
        ensures placed { IfOk result (λ n. IfSome (seen self.old).files
            (λ files. n ≡ length (read_from at (length buf.old) (contents files name)))) }
        ensures bytes { IfOk result (λ n. IfSome (seen self.old).files
            (λ files. buf.new ≡ read_from at (length buf.old) (contents files name) ++ drop n buf.old)) }
        ensures memory { result ≡ Err DiskFault.Memory → buf.new ≡ buf.old }

        ensures same { (seen self.new).files ≡ (seen self.old).files }
        ensures crash { Passes Same (seen self.old) (seen self.new) }
        ensures cause { HasCause result (seen self.old).faults (seen self.new).faults }
        ensures want { result ≡ Err DiskFault.Memory → (seen self.old).may_want };

    /// Writes over what is there and past the file's end, and makes the file if it is not there.
    /// After `Failed` the written range may hold any bytes.
    fn write_at(&mut self, name: FileName, at: u64, bytes: &[u8]) -> Result<(), DiskFault>
        requires { ForSome (seen self.old).files (λ files. at ≤ length (contents files name)) }

        ensures written { OnOk result
            ((seen self.new).files ≡ option_map (λ files. with_write files name at bytes.now)
            (seen self.old).files) }
        ensures failed { result ≡ Err DiskFault.Failed
            → Takes (Torn name at (length bytes.now)) (seen self.old).files (seen self.new).files }
        ensures memory { result ≡ Err DiskFault.Memory → (seen self.new).files ≡ (seen self.old).files }

        // In the call, and after it until a sync, the write is torn.
        ensures crash { Passes (Torn name at (length bytes.now)) (seen self.old) (seen self.new) }
        ensures memory_crash { result ≡ Err DiskFault.Memory
            → Passes Same (seen self.old) (seen self.new) }
        ensures cause { HasCause result (seen self.old).faults (seen self.new).faults }
        ensures want { result ≡ Err DiskFault.Memory → (seen self.old).may_want };

    /// Cuts the file to a length in bytes. A file that is not there is no fault and is not made.
    /// After `Failed` the cut may have happened or not.
    fn cut(&mut self, name: FileName, len: u64) -> Result<(), DiskFault>
        requires { ForSome (seen self.old).files (λ files. len ≤ length (contents files name)) }

        ensures cut { OnOk result
            ((seen self.new).files ≡ option_map (λ files. with_cut files name len) (seen self.old).files) }
        ensures failed { result ≡ Err DiskFault.Failed
            → Takes (CutOrNot name len) (seen self.old).files (seen self.new).files }
        ensures memory { result ≡ Err DiskFault.Memory → (seen self.new).files ≡ (seen self.old).files }

        // In the call, and after it until a sync, the cut may have happened or not.
        ensures crash { Passes (CutOrNot name len) (seen self.old) (seen self.new) }
        ensures memory_crash { result ≡ Err DiskFault.Memory
            → Passes Same (seen self.old) (seen self.new) }
        ensures cause { HasCause result (seen self.old).faults (seen self.new).faults }
        ensures want { result ≡ Err DiskFault.Memory → (seen self.old).may_want };

    /// Makes all that reads give durable. After an error nothing new is settled.
    fn sync(&mut self) -> Result<(), DiskFault>
        ensures durable { OnOk result (IsSettled (seen self.new)) }

        ensures same { (seen self.new).files ≡ (seen self.old).files }
        ensures crash { Passes Same (seen self.old) (seen self.new) }
        ensures cause { HasCause result (seen self.old).faults (seen self.new).faults }
        ensures want { result ≡ Err DiskFault.Memory → (seen self.old).may_want };
}
