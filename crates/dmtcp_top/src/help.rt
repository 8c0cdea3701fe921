ghost use Rattle.std.specs.Prelude.{◌≡◌, ◌⊎◌};
ghost use Rattle.views.specs.Faults.{Rose};
ghost use Rattle.edge_io.specs.Sunk.{sunk};
ghost use Rattle.dmtcp_top.specs.Help.{HelpEnds};

use edge_io::Sink;
use endings::{Ending, Status};

/// The forms of the command line, a line each.
pub const FORMS: &str = "dmtcp launch [options] host:name[,argument]...\n\
    dmtcp restart [options]\n\
    dmtcp ring N [options]\n\
    dmtcp help\n";

/// Tells the forms of the command line on the console.
pub(crate) fn tell_forms<O: Sink, L: Sink>(out: &mut O, log: &mut L) -> Status
    ensures ends { HelpEnds result
        (sunk (O.seen out.old).taken (O.seen out.new).taken)
        (sunk (L.seen log.old).taken (L.seen log.new).taken) }
    ensures cause { result ≡ Status.SinkFault → Rose (O.seen out.old).faults (O.seen out.new).faults
        ⊎ Rose (L.seen log.old).faults (L.seen log.new).faults }
{
    match out.put(FORMS.as_bytes()) {
        Ok(()) => Ending::Done.conclude(log),
        Err(_) => Status::SinkFault,
    }
}
