// Tables judged at each limit and one past it, and the rows of one read back; what is printed is held to the file stdout.
// (The host's handle is lent to each call.)
#![tactic(auto)]

mod cases;
mod rows;

use std::io;

fn main(rt: HostRuntime) -> io::Result<()> {
    cases::heads(&rt)?;
    cases::lengths(&rt)?;
    cases::words(&rt)?;
    cases::expressions(&rt)?;
    cases::actions(&rt)?;
    cases::tests(&rt)?;
    rows::counter(&rt)
}
