ghost use Rattle.discovery.specs.Uses.{LastCounts, AskedSince, NothingElse};

/// What a directory answers after any list of publications and look-ups, one after another, from the empty
/// one. It does nothing.
pub fn directory_laws()
    // `find` answers the address that was published last.
    ensures last { LastCounts }

    // `asked` tells whether it was looked up since.
    ensures asked { AskedSince }

    // Nothing is there that was not published.
    ensures none { NothingElse }
{}
