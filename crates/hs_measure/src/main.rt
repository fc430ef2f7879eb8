//! Does work of the shell's layers that is to be timed from outside, and prints what came of it. It measures no time.
//!
//!     hs_measure match PATTERN PIECE COUNT
//!
//! says whether the pattern, none of whose bytes is quoted, matches the piece written COUNT times.
//!
//!     hs_measure tree COUNT      puts so many entries into a tree, 512 in each folder
//!     hs_measure append COUNT    puts 10 bytes at the end of one file, so many times
//!     hs_measure shells COUNT    begins and ends so many subshell environments over 50 variables
//!     hs_measure equal COUNT     compares a file of 1 MiB with an equal text, so many times
//!     hs_measure longer COUNT    the same with a text that is longer by one byte
//!
//!     hs_measure view COUNT      does so many effects in a view, and reads one location for each ten of them
//!
//!     hs_measure parse FILE      reads the script of a file, and prints how many pipelines it has
//!
//!     hs_measure run FILES BYTES SCRIPT
//!
//! runs a script over so many files `f0`, `f1` and so on, each of so many bytes, and prints how many bytes it writes.
//!
//!     hs_measure script FILE
//!
//! does so with the script of a file, over no files.
//!
//!     hs_measure over FILE SCRIPT
//!
//! runs a script over one file `f0`, with the bytes of a file, which are standard input too.
//!
//! Each of the others prints how many effects, entries or reads came, or comparisons said yes.
#![tactic(auto)]

mod runs;
mod state;
mod views;

use anyhow::{Context, bail};
use hs_text::Field;
use sh_pattern::{compile, matches};
use sh_script::parse;
use std::alloc::{AllocError, Global};
use std::{env, fs};

/// A field of these bytes, none of them quoted.
fn unquoted(alloc: Global, text: &str) -> Result<Field, AllocError> {
    let mut field = Field::new(alloc);
    for byte in text.as_bytes() {
        field.push(*byte, false)?;
    }
    Ok(field)
}

/// The piece, so many times.
fn repeated(alloc: Global, piece: &str, count: u32) -> Result<Vec<u8>, AllocError> {
    let mut bytes = Vec::new(alloc);
    for _ in 0..count {
        bytes.extend_from_slice(piece.as_bytes())?;
    }
    Ok(bytes)
}

fn match_text(alloc: Global, pattern: &str, piece: &str, count: u32) -> Result<bool, AllocError> {
    let pattern = compile(alloc, &unquoted(alloc, pattern)?)?;
    let bytes = repeated(alloc, piece, count)?;
    Ok(matches(&pattern, &bytes))
}

/// Does one kind of work, so many times.
fn work(alloc: Global, kind: &str, count: u32) -> anyhow::Result<u64> {
    match kind {
        "tree" => state::tree(alloc, count),
        "append" => state::append(alloc, count),
        "shells" => state::shells(alloc, count),
        "equal" => state::compare(alloc, count, 1_048_576),
        "longer" => state::compare(alloc, count, 1_048_577),
        "view" => Ok(views::view(alloc, count)),
        _ => bail!("no such work"),
    }
}

/// How many pipelines a script has.
fn leaves(alloc: Global, text: &[u8]) -> anyhow::Result<usize> {
    match parse(alloc, text) {
        Ok(script) => Ok(script.leaves.len()),
        Err(_) => bail!("the text spells no script"),
    }
}

fn main(rt: HostRuntime) -> anyhow::Result<()> {
    let words: Vec<String> = env::args(&rt)?.skip(1).collect(rt.alloc())?;
    match words.as_slice() {
        [kind, pattern, piece, count] if kind.as_str() == "match" => {
            let count = count.parse::<u32>().context("COUNT is no number")?;
            let answer = match_text(rt.alloc(), pattern.as_str(), piece.as_str(), count)?;
            println!(rt; "{answer}")?;
        }
        [kind, files, bytes, script] if kind.as_str() == "run" => {
            let files = files.parse::<u32>().context("FILES is no number")?;
            let bytes = bytes.parse::<u32>().context("BYTES is no number")?;
            let answer = runs::run(rt.alloc(), files, bytes, script.as_bytes())?;
            println!(rt; "{answer}")?;
        }
        [kind, file, script] if kind.as_str() == "over" => {
            let bytes = fs::read(&rt, file.as_str())?;
            let answer = runs::over(rt.alloc(), &bytes, script.as_bytes())?;
            println!(rt; "{answer}")?;
        }
        [kind, file] if kind.as_str() == "parse" => {
            let text = fs::read(&rt, file.as_str())?;
            let count = leaves(rt.alloc(), &text)?;
            println!(rt; "{count}")?;
        }
        [kind, file] if kind.as_str() == "script" => {
            let text = fs::read(&rt, file.as_str())?;
            let answer = runs::run(rt.alloc(), 0, 0, &text)?;
            println!(rt; "{answer}")?;
        }
        [kind, count] => {
            let count = count.parse::<u32>().context("COUNT is no number")?;
            let answer = work(rt.alloc(), kind.as_str(), count)?;
            println!(rt; "{answer}")?;
        }
        _ => bail!(
            "usage: hs_measure match PATTERN PIECE COUNT, hs_measure run FILES BYTES SCRIPT, hs_measure over FILE SCRIPT, hs_measure script FILE, hs_measure parse FILE, or hs_measure WORK COUNT"
        ),
    }
    Ok(())
}
