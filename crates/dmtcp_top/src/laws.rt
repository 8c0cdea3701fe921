ghost use Rattle.dmtcp_top.specs.Promise.{NotBoth, OneDamage, OneState, RoundTrip};
ghost use Rattle.dmtcp_top.specs.OneOrder.{OneOrder, OneTrace, StandsStill, EndsThere, OneEnd, OneEnding, EndsSo, OneRestart, RestartEndsSo, SetIsValid, OneAnswer, LacksNoRequest};

/// Laws of the sets that calls leave and restarts take. It does nothing. A folder's set spells one state at
/// most, so where it is one of a run's cuts, a restart goes on from exactly the state there; and where the
/// rounds from there come within its room to an end at which nobody lives, a restart without checkpoints, in
/// which nothing outside fails, answers Done with exactly their records, or wants memory. A set that counts
/// never both spells a state and is damaged, and it has at most one first damage.
pub fn restart_laws()
    ensures one { OneState }
    ensures round_trip { RoundTrip }
    ensures end { RestartEndsSo }
    ensures apart { NotBoth }
    ensures place { OneDamage }
{}

/// Laws of the order in which the threads run. It does nothing. Where no checkpoints are made a state's
/// rounds make one run, and it is over once nobody lives or can go on. Where they are to be made, a run to
/// its end with as many records of work as that takes, and room for more, has a mark, if a generation was
/// left.
pub fn order_laws()
    ensures order { OneOrder }
    ensures trace { OneTrace }
    ensures still { StandsStill }
    ensures over { EndsThere }
    ensures end { OneEnd }
    ensures ending { OneEnding }
    ensures so { EndsSo }
    ensures restart { OneRestart }
    ensures valid { SetIsValid }
    ensures answer { OneAnswer }
    ensures due { LacksNoRequest }
{}
