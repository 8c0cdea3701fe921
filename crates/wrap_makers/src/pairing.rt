//! The pair of a new number, and its maker.
ghost use Rattle.std.specs.Prelude.{◌≡◌, None, OnOk, OnErr};
ghost use Rattle.std.specs.FinMap as map;
ghost use Rattle.wrap_makers.specs.Cloning as words;

use conn_table::ConnTable;
use std::alloc::AllocError;
use sys_abi::{CloneForm, Maker, RealPid, VPid};
use virt_ids::Ids;

/// The maker of a child, on its parent's host. Its first number is 1. A thread has none.
pub(crate) fn maker_in(conns: &ConnTable, p: VPid, form: CloneForm) -> Option<Maker>
    ensures { result ≡ words.maker_in conns.now.makers p form }
{
    match form {
        CloneForm::Fork => Some(Maker {
            host: host_in(conns, p),
            made: 1,
        }),
        CloneForm::Thread => None,
    }
}

fn host_in(conns: &ConnTable, p: VPid) -> u32
    ensures { result ≡ words.host_in conns.now.makers p }
{
    match conns.maker(p) {
        Some(maker) => maker.host,
        None => 0,
    }
}

/// Pairs a new number with a new real one, and gives it its maker where it has one. After want of memory all
/// is as before.
pub(crate) fn add_number(
    ids: &mut Ids,
    conns: &mut ConnTable,
    number: u32,
    real: RealPid,
    maker: Option<Maker>,
) -> Result<(), AllocError>
    requires new_number { map.get ids.old.pids number ≡ None }
    requires new_real { map.get ids.old.virts real ≡ None }
    ensures paired { OnOk result (ids.new ≡ words.with_pair ids.old number real) }
    ensures made { OnOk result (conns.new ≡ words.with_maker conns.old number maker) }
    ensures ids { OnErr result (ids.new ≡ ids.old) }
    ensures conns { OnErr result (conns.new ≡ conns.old) }
{
    let Ok(_) = ids.add_pid(number, real) else {
        return Err(AllocError);
    };
    let Some(maker) = maker else {
        return Ok(());
    };
    let Ok(_) = conns.set_maker(VPid(number), maker) else {
        ids.drop_pid(number);
        return Err(AllocError);
    };
    Ok(())
}

/// Takes a new number out again, with its maker. Takes no memory.
pub(crate) fn drop_number(ids: &mut Ids, conns: &mut ConnTable, number: u32)
    ensures ids { ids.new ≡ words.without_pair ids.old number }
    ensures conns { conns.new ≡ words.without_maker conns.old number }
{
    ids.drop_pid(number);
    conns.drop_maker(VPid(number));
}
