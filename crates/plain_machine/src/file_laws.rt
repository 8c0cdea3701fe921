ghost use Rattle.plain_machine.specs.FileLaws.{MadeKeeps, MarkKeeps, DescriptionKeeps, ObjectKeeps, BytesKeep, UnlinkKeeps};

/// What each word of change on descriptors, open files and names keeps of a whole kernel part, for proofs
/// about calls. It does nothing.
pub fn file_laws()
    ensures made { MadeKeeps }
    ensures mark { MarkKeeps }
    ensures description { DescriptionKeeps }
    ensures object { ObjectKeeps }
    ensures bytes { BytesKeep }
    ensures unlink { UnlinkKeeps }
{}
