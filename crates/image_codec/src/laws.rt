ghost use Rattle.std.specs.Prelude.{ℕ, List, Option};
ghost use Rattle.image_format.specs.Files.{FileLaws};
ghost use Rattle.image_format.specs.Manifests.{SpellsManifest, DamagedManifest};
ghost use Rattle.image_process.specs.ProcessImages.{SpellsProcess, DamagedProcess};
ghost use Rattle.shared_items.specs.SharedFormat.{SpellsShared, DamagedShared};
ghost use Rattle.image_codec.specs.KernelImages.{ImageIsKernel, KernelComesBack, KernelHasImage};
ghost use Rattle.image_codec.specs.LiveImages.{PartsHavePlaces, ImagesAreParts};
ghost use Rattle.image_codec.specs.Sets.{OneStateOfSet, OneSetOfState, StateHasSet, SetIsValid, FilesApart, FilesEither, OneDamageOfFiles};
ghost use Rattle.image_codec.specs.StartImages.{StartHasImage};

/// The laws of a set's files. It does nothing. A file spells at most one value, and a value has at most one
/// spelling; other bytes are damaged at exactly one place; a spelling that is cut short is damaged at its new
/// length; and what stands before a damage, with the field there, decides it, whatever follows. The shared
/// image and the images of processes together spell values or are damaged, and never both, and their first
/// damage is at one place of one file.
pub fn file_laws()
    ensures manifest { FileLaws SpellsManifest DamagedManifest }
    ensures shared { FileLaws SpellsShared DamagedShared }
    ensures process { (pid : Option ℕ) (tids : List ℕ)
        → FileLaws (SpellsProcess pid tids) (DamagedProcess pid tids) }
    ensures apart { FilesApart }
    ensures place { OneDamageOfFiles }
    ensures either { FilesEither }
{}

/// The laws of the shared image. It does nothing. A shared image stands for a kernel part that a run may
/// reach; and such a kernel part has one, which is made of its entries, where no datagram end or event
/// counter is open and all bytes have arrived. The start of a program has an image.
pub fn image_laws()
    ensures kernel { ImageIsKernel }
    ensures back { KernelComesBack }
    ensures image { KernelHasImage }
    ensures start { StartHasImage }
{}

/// The laws of whole sets. It does nothing. A set spells one state at most, and a state has one set of a
/// generation at most. A valid state has a set of each generation, where no datagram end or event counter is
/// open and all bytes have arrived; and what a set spells is such a state. The parts of its live processes
/// are in the files from 2 on, in order.
pub fn set_laws()
    ensures set { OneStateOfSet }
    ensures spelling { OneSetOfState }
    ensures image { StateHasSet }
    ensures valid { SetIsValid }

    // Of the parts of its live processes.
    ensures places { PartsHavePlaces }
    ensures parts { ImagesAreParts }
{}
