ghost use Rattle.std.specs.Prelude.{◌≡◌, Option, option_map};
ghost use Rattle.disk_folder.specs.Files.{FolderFiles};
ghost use Rattle.image_store.specs.Slots.{last};
ghost use Rattle.image_store.specs.FoundSets.{FoundSet, last_set};
ghost use Rattle.store_runs.specs.StoreLaws.{info_in, IsOneSet, IsApart, IsOnePlace};

/// What holds of the sets of every folder: the definitions by which contracts speak of them fit
/// together. It does nothing.
pub fn store_laws()
    // The set that counts has the slot and the generation that count.
    ensures info { (files : FolderFiles) → last files ≡ option_map info_in (last_set files) }

    // A set is whole in one way, or damaged at one place, and not both.
    ensures one { (found : Option FoundSet) → IsOneSet found }
    ensures apart { (found : Option FoundSet) → IsApart found }
    ensures place { (found : Option FoundSet) → IsOnePlace found }
{}
