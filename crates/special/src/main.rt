//! The program: the top call over the present folder and standard output.
#![tactic(auto)]

mod folder_library;
mod out_sink;

use folder_library::FolderLibrary;
use out_sink::OutSink;
use sp_driver::{Status, run};
use std::process::ExitCode;
use std::rt::Env;
use std::{env, io};

// The words of the command line, without the program's name.
fn words_of(rt: &(impl Env + AllocGlobal)) -> io::Result<Vec<String>> {
    let mut words = Vec::new(rt.alloc());
    for word in env::args(rt)?.skip(1) {
        words.push(word)?;
    }
    Ok(words)
}

fn main(rt: HostRuntime) -> ExitCode {
    let mut library = FolderLibrary::new(&rt);
    let mut out = OutSink::new(io::writer(&rt));
    let status = match words_of(&rt) {
        Ok(words) => run(rt.alloc(), &words, &mut library, &mut out),
        Err(error) if error.kind() == io::ErrorKind::OutOfMemory => Status::Memory,
        // A word that is no text names no command, and no words do neither.
        Err(_) => run(rt.alloc(), &[], &mut library, &mut out),
    };
    ExitCode::from(status.code())
}

#[cfg(test)]
mod tests;
