//! The shell hS: runs a script that is handed over with `-c`.
#![tactic(auto)]

mod environ;
mod gate;
mod stream;
#[cfg(test)]
mod tests;
mod top;
mod variables;

use environ::environ;
use gate::NoGate;
use hs_outside::MemoryHost;
use hs_text::Text;
use hs_world::Tree;
use std::alloc::{AllocError, Global};
use std::io::ErrorKind;
use std::process::ExitCode;
use std::rt::Env;
use std::{env, io};
use stream::{StreamSink, StreamSource};
use top::top;

/// Why the words could not be taken.
enum WordsErr {
    NoMemory,
    /// A word is not UTF-8.
    NotText,
}

/// The words of the command line, without the program's name.
fn words_of<R: Env + AllocGlobal>(rt: &R) -> Result<Vec<Text>, WordsErr> {
    let args = match env::args(rt) {
        Ok(args) => args,
        Err(error) if error.kind() == ErrorKind::InvalidData => return Err(WordsErr::NotText),
        Err(_) => return Err(WordsErr::NoMemory),
    };
    let mut words = Vec::new(rt.alloc());
    for arg in args.skip(1) {
        let Ok(word) = Text::from_slice(rt.alloc(), arg.as_bytes()) else {
            return Err(WordsErr::NoMemory);
        };
        if words.push(word).is_err() {
            return Err(WordsErr::NoMemory);
        }
    }
    Ok(words)
}

fn main(rt: HostRuntime) -> ExitCode {
    let words = match words_of(&rt) {
        Ok(words) => words,
        Err(WordsErr::NoMemory) => {
            let _ = rt.eprintln("hs: out of memory");
            return ExitCode::from(125);
        }
        Err(WordsErr::NotText) => {
            let _ = rt.eprintln("hs: bad command line");
            return ExitCode::from(2);
        }
    };
    let Ok(env) = environ(rt.alloc(), &rt) else {
        let _ = rt.eprintln("hs: out of memory");
        return ExitCode::from(125);
    };
    let Ok(mut host) = MemoryHost::new(Tree::new(rt.alloc()), Vec::new(rt.alloc())) else {
        let _ = rt.eprintln("hs: out of memory");
        return ExitCode::from(125);
    };
    let answer = top(
        rt.alloc(),
        &words,
        &env,
        &mut host,
        &mut StreamSource::new(rt.stdin().lock()),
        &mut StreamSink::new(rt.stdout()),
        &mut StreamSink::new(rt.stderr()),
        &NoGate,
    );
    ExitCode::from(answer.status)
}
