ghost use Rattle.leader_vote.specs.Elections.{LastVoterLeads, NoneWithoutVote, VotesGiveLeaders, OwnersAlone, OneMoreVote, TestsHolders};

/// What elections come to, for every book, every list of voters and every list of pending connections. It
/// does nothing.
pub fn leader_laws()
    // The last voter among the holders leads, and nobody exactly where no holder has voted.
    ensures last { LastVoterLeads }
    ensures none { NoneWithoutVote }

    // Once each holder has voted, the leader law holds.
    ensures leaders { VotesGiveLeaders }

    // Votes change owners, and nothing else.
    ensures owners { OwnersAlone }

    // For proofs about votes in a row.
    ensures one_more { OneMoreVote }
    ensures holders { TestsHolders }
{}
