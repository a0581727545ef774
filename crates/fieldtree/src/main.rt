// Runs a script that drafts schemas: that of the file named, that of standard input for `-`, or a built-in one.
#![tactic(auto)]

mod journal;

fn main(rt: HostRuntime) -> anyhow::Result<()> {
    script::run_program(&rt, journal::JOURNAL)
}
