// Runs the cases of its input, which is a script.
#![tactic(auto)]

fn main(rt: HostRuntime) -> anyhow::Result<()> {
    script::run_program(&rt, "")
}
