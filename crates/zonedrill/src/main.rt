// Plays drill scripts: the files that are named, `-` for standard input, or else standard input alone.
#![tactic(auto)]

use anyhow::anyhow;
use drill::playing::play;
use std::io::{Read, Write};
use std::{env, fs};

fn main(rt: HostRuntime) -> anyhow::Result<()> {
    run(&rt)
}

fn run(rt: &HostRuntime) -> anyhow::Result<()> {
    let mut names = env::args(rt)?.skip(1).peekable();
    if names.peek().is_none() {
        return play_input(rt);
    }
    for name in names {
        match name.as_str() {
            "-" => play_input(rt)?,
            file => play_file(rt, file)?,
        }
    }
    Ok(())
}

fn play_file(rt: &HostRuntime, name: &str) -> anyhow::Result<()> {
    match fs::read(rt, name) {
        Ok(script) => print_played(rt, &script),
        Err(_) => {
            eprintln!(rt; "{name}: cannot be read")?;
            Err(anyhow!("a script cannot be read"))
        }
    }
}

fn play_input(rt: &HostRuntime) -> anyhow::Result<()> {
    let mut script = Vec::new(rt.alloc());
    rt.stdin().read_to_end(&mut script)?;
    print_played(rt, &script)
}

fn print_played(rt: &HostRuntime, script: &[u8]) -> anyhow::Result<()> {
    let out = play(rt.alloc(), script)?;
    rt.stdout().write_all(&out)?;
    Ok(())
}
