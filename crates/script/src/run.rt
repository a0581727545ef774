// A program that runs one script.
use crate::session::Session;
use anyhow::anyhow;
use std::io::Read;
use std::{env, fs, io};

// The bytes of the file that is named, or of standard input for `-`.
fn read_named(rt: &HostRuntime, name: &str) -> io::Result<Vec<u8>> {
    if name != "-" {
        return fs::read(rt, name);
    }
    let mut script = Vec::new(rt.alloc());
    rt.stdin().read_to_end(&mut script)?;
    Ok(script)
}

// The script that the program's argument names; with no argument, the built-in one.
fn read_script(rt: &HostRuntime, built_in: &str) -> anyhow::Result<Vec<u8>> {
    let mut args = env::args(rt)?.skip(1);
    let Some(name) = args.next() else {
        return Ok(built_in.as_bytes().to_vec(rt.alloc())?);
    };
    if args.next().is_some() {
        return Err(anyhow!("one script at most is run"));
    }
    read_named(rt, &name).map_err(|error| anyhow!("the script {name} cannot be read: {error}"))
}

// Runs a script line by line, and prints what came of each.
fn run_script(rt: &HostRuntime, script: &[u8]) -> io::Result<()> {
    let mut session = Session::new(rt.alloc())?;
    for line in script.split(|byte| *byte == b'\n') {
        rt.print(session.answer(rt.alloc(), line)?)?;
    }
    Ok(())
}

// Runs the script that the program is given, or the built-in one.
pub fn run_program(rt: &HostRuntime, built_in: &str) -> anyhow::Result<()> {
    let script = read_script(rt, built_in)?;
    run_script(rt, &script)?;
    Ok(())
}
