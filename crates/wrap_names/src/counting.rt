//! How many things each process has made.
ghost use Rattle.std.specs.Prelude.{◌≡◌, ◌+◌, ◌<◌, ◌^◌, Some};
ghost use Rattle.std.specs.FinMap as map;
ghost use Rattle.sys_abi.specs.declared.maker.Maker.{Maker};
ghost use Rattle.plain_tables.specs.Tables.{changed_at, made_more};
ghost use Rattle.wrap_names.specs.Wrapping as words;

use conn_table::ConnTable;
use host_streams::KernelReply;
use sys_abi::{Maker, VPid};

/// Whether the call gave a value.
pub fn is_done(reply: KernelReply) -> bool
    ensures { result ≡ words.is_done reply }
{
    match reply {
        KernelReply::Done(_) => true,
        _ => false,
    }
}

/// The process has made so many things more.
pub fn count_made(conns: &mut ConnTable, p: VPid, n: u32)
    requires { (maker : Maker) → map.get conns.old.makers p ≡ Some maker → maker.made + n < 2 ^ 32 }
    ensures { conns.new ≡ record conns.old { makers = changed_at conns.old.makers p (made_more n) } }
{
    let Some(maker) = conns.maker(p) else {
        return;
    };
    let more = Maker {
        host: maker.host,
        made: maker.made + n,
    };
    let _ = conns.set_maker(p, more);
}
