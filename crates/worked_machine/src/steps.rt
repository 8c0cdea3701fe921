// A thread's steps through a program.
use crate::process::{Step, follow, with_program};
use std::test::Fail;
use sys_abi::Tid;

static TO_ITS_CALL: [Step; 6] = [
    Step::Run(5),
    Step::StandsAt(0x0001_0014),
    Step::InT2(4),
    Step::Byte(0x0001_0044, 0xFE),
    Step::AsksForCall0,
    Step::HasNoThread(Tid(1)),
];

#[test]
fn a_program_runs_to_its_call(rt: HostRuntime) -> Result<(), Fail> {
    let mut user = Box::new(rt.alloc(), with_program(rt.alloc())?)?;
    follow(&rt, &mut user, &TO_ITS_CALL);
    Ok(())
}
