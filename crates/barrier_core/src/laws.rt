ghost use Rattle.std.specs.Prelude.{◌≡◌, ℕ, List, is_some, take, length};
ghost use Rattle.std.specs.FinMap as map;
ghost use Rattle.sys_abi.specs.declared.identity.VPid.{VPid};
ghost use Rattle.barrier_core.specs.Calls as calls;
ghost use Rattle.barrier_core.specs.Barriers as barriers;
ghost use Rattle.barrier_core.specs.Stages as stages;

/// What holds of a barrier after every run of calls whose conditions are met. It does nothing.
pub fn barrier_laws()
    // The barrier law, whatever the number of members there is room for.
    ensures in_step { (limit : ℕ) (run : List calls.Call) → calls.AreAllowed limit run → barriers.IsLawful limit (calls.state_after run) }

    // The members are the processes that lived at the request, and those that joined later, without those
    // that left.
    ensures members { (run : List calls.Call) (p : VPid) → is_some (map.get (calls.state_after run).members p) ≡ calls.belongs p run }

    // What a process has taken since it belongs to the request are the messages up to its last one, each
    // once.
    ensures messages { (run : List calls.Call) (p : VPid) → calls.messages p run ≡ stages.messages_to (calls.last_taken (map.get (calls.state_after run).members p)) }

    // So they are always the first few of all messages, in order.
    ensures in_order { (run : List calls.Call) (p : VPid) → calls.messages p run ≡ take (length (calls.messages p run)) stages.all_messages }
{}
