// Runs worked examples and prints a line for each, which is compared with the stored output.
// (The host's handle is lent to each call.)
#![tactic(auto)]

mod files;
mod values;

fn run(rt: &HostRuntime) -> anyhow::Result<()> {
    values::run(rt)?;
    files::run(rt)
}

fn main(rt: HostRuntime) -> anyhow::Result<()> {
    run(&rt)
}
