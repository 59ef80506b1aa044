//! The program: passes the arguments, files, streams and the clock of the operating system to
//! `program`.

// The program uimg, a function of uimg_tool.
#![tactic(auto)]

use std::io::IsTerminal;
use std::process::ExitCode;
use std::{env, io};
use uimg_tool::{Cleared, Meter, WatchedFiles, can_erase, epoch, now, program};

fn main(rt: HostRuntime) -> ExitCode {
    match run(&rt) {
        Ok(status) => ExitCode::from(status),
        Err(error) if error.kind() == io::ErrorKind::InvalidData => {
            let _ = rt.eprintln("uimg: a word of the command line is not UTF-8");
            ExitCode::from(2)
        }
        Err(_) => {
            let _ = rt.eprintln("uimg: out of memory");
            ExitCode::from(3)
        }
    }
}

fn run(rt: &HostRuntime) -> io::Result<u8> {
    let arguments: Vec<String> = env::args(rt)?.collect(rt.alloc())?;
    let mut words = Vec::new(rt.alloc());
    for argument in &arguments {
        words.push(argument.as_str())?;
    }
    let epoch = epoch(rt)?;
    let now = now(rt).unwrap_or(0);
    let is_shown = rt.stderr().is_terminal() && can_erase(rt) && !is_quiet(&words);
    let meter = Meter::new(rt, rt.alloc(), rt.stderr(), is_shown);
    let status = program(
        &WatchedFiles::new(rt, &meter),
        &words,
        epoch.as_deref(),
        now,
        &mut Cleared::new(&meter, rt.stdout()),
        &mut Cleared::new(&meter, rt.stderr()),
    );
    meter.clear();
    Ok(status)
}

fn is_quiet(words: &[&str]) -> bool {
    words.iter().any(|word| *word == "-q" || *word == "--quiet")
}
