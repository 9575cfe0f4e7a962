// Prints the settings that a nest file admits, line by line: of the file named as argument, or else of standard input.
#![tactic(auto)]

use printing::{Printed, print_answer};
use std::io::{LineWriter, Read};
use std::process::ExitCode;
use std::{env, fs, io};

// The status where no answer was printed whole.
const NO_ANSWER: u8 = 2;

fn input_of(rt: &HostRuntime) -> io::Result<Vec<u8>> {
    let mut text = Vec::new(rt.alloc());
    rt.reader().read_to_end(&mut text)?;
    Ok(text)
}

fn answer(rt: &HostRuntime, text: &[u8]) -> io::Result<ExitCode> {
    let mut out = LineWriter::new(rt.alloc(), io::writer(rt))?;
    match print_answer(text, &mut out)? {
        Printed::Listing => Ok(ExitCode::SUCCESS),
        Printed::Fault => Ok(ExitCode::FAILURE),
    }
}

fn run(rt: &HostRuntime) -> io::Result<ExitCode> {
    let mut arguments = env::args(rt)?;
    let path = arguments.nth(1);
    if arguments.next().is_some() {
        eprintln!(rt; "usage: settle [FILE]")?;
        return Ok(ExitCode::from(NO_ANSWER));
    }
    let (name, text) = match &path {
        Some(path) => (path.as_str(), fs::read(rt, path.as_str())),
        None => ("standard input", input_of(rt)),
    };
    match text {
        Ok(text) => answer(rt, text.as_slice()),
        Err(error) => {
            eprintln!(rt; "settle: {name}: {error}")?;
            Ok(ExitCode::from(NO_ANSWER))
        }
    }
}

fn main(rt: HostRuntime) -> ExitCode {
    match run(&rt) {
        Ok(status) => status,
        Err(error) => {
            let _ = eprintln!(rt; "settle: {error}");
            ExitCode::from(NO_ANSWER)
        }
    }
}
