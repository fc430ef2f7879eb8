//! The whole program, from its words to its status.

ghost use Rattle.std.specs.Prelude.{◌≡◌, ◌≤◌, ℕ, List, IfOk, MatchOption, false};
ghost use Rattle.hs_outside.specs.Causes.{Rose};
ghost use Rattle.hs_outside.specs.Hosts.{one_more};
ghost use Rattle.hs_world.specs.Files.{is_over};
ghost use Rattle.hs_drive.specs.Ending.{IsTold, line_of, status_of, syntax_line_of};
ghost use Rattle.hs_drive.specs.Commit.{Streams};
ghost use Rattle.hs_main.specs.Start.{start};
ghost use Rattle.hs_main.specs.Top.{Asks, FilesOf, Finds, IsAsked, IsCompleteFor, Parsed, RunsWords, Tops, no_report};

use crate::gate::Gate;
use crate::variables::first_vars;
use hs_drive::{Ending, Report, plain, syntax_line};
use hs_outside::{Host, HostErr, Sink, Source, send};
use hs_text::{Text, TextList};
use hs_view::SpentKind;
use hs_world::{Limits, Tree, World, WorldErr};
use sh_leaf::built;
use sh_script::{ParseErr, parse};
use sh_syntax::Script;
use std::alloc::{AllocError, Global};
use std::sync::Arc;

/// The answer of the whole program.
#[derive(Clone, Copy, Debug, PartialEq, Eq)]
pub struct Answer {
    pub status: u8,
    pub ending: Ending,
    pub report: Report,
}

/// The limits of a run that is given none.
const LIMITS: Limits = Limits {
    bytes: 16_777_216,
    turns: 1_000_000,
};

/// The state in which a script begins over these files, with the variables of this environment.
fn start(alloc: Global, env: &[(Text, Text)], tree: Tree) -> Result<World, AllocError>
    requires within { is_over tree ≡ false }
    ensures { IfOk result (λ world. world ≡ start env.now tree) }
{
    let vars = first_vars(alloc, env)?;
    let zero = Text::from_slice(alloc, b"hs")?;
    let (params, input) = (TextList::new(alloc), Text::new(alloc));
    match World::new(alloc, tree, vars, zero, params, input, LIMITS) {
        Ok(world) => Ok(world),
        Err(WorldErr::NoMemory) => Err(AllocError),
        Err(WorldErr::Full(_)) => unreachable!(),
    }
}

/// Where no run began.
fn no_report() -> Report
    ensures { result ≡ no_report }
{
    Report {
        head: 0,
        turns: 0,
        count: 0,
    }
}

/// The text that stands after `-c`, where these are the words (POSIX.1-2017, XCU, sh).
fn script_text(words: &[Text]) -> Option<&Text>
    ensures { MatchOption result ((text : List ℕ) → Asks words.now text → ⊥) (λ text. Asks words.now text.now) }
{
    let [option, text] = words else {
        return None;
    };
    if option.as_slice() == b"-c".as_slice() {
        Some(text)
    } else {
        None
    }
}

/// The one script that a text spells.
fn parsed(alloc: Global, text: &[u8]) -> Result<Script, ParseErr>
    ensures { Parsed result text.now }
{
    parse(alloc, text)
}

/// The one script that a text spells, where it is of the forms that are built; else how the program ends.
#[tactic(auto, using(crate::proofs::Tops::unbuilt_of))]
fn built_script(alloc: Global, text: &[u8]) -> Result<Script, Ending>
    ensures { Finds result text.now }
{
    match parsed(alloc, text) {
        Ok(script) => {
            if built(&script) {
                Ok(script)
            } else {
                Err(Ending::Unbuilt)
            }
        }
        Err(ParseErr::Syntax { line, fault }) => Err(Ending::Syntax { line, fault }),
        Err(ParseErr::NoMemory) => Err(Ending::NoMemory),
    }
}

/// The host's files, or how the program ends where they can't be loaded.
fn loaded<H: Host>(alloc: Global, host: &mut H) -> Result<Tree, Ending>
    ensures loaded { FilesOf (Rose (H.faults host.old) (H.faults host.new)) (H.files host.old) result }
    ensures files { H.files host.new ≡ H.files host.old }
    ensures asked { H.calls host.new ≡ one_more (H.calls host.old) }
    ensures later { H.faults host.old ≤ H.faults host.new }
{
    match host.load(alloc) {
        Ok(tree) => Ok(tree),
        Err(HostErr::NoMemory) => Err(Ending::NoMemory),
        Err(HostErr::Fault) => Err(Ending::HostFault),
        Err(HostErr::TooLarge { .. }) => Err(Ending::Spent(SpentKind::Tree)),
    }
}

/// Runs the script that the words hand over, over the host's files.
#[tactic(auto, using(crate::proofs::Tops::asked_once, crate::proofs::Tops::asked_never))]
fn run_words<H: Host, O: Sink, E: Sink>(
    alloc: Global,
    words: &[Text],
    env: &[(Text, Text)],
    host: &mut H,
    out: &mut O,
    err: &mut E,
) -> (Ending, Report)
    ensures runs { RunsWords (Rose (H.faults host.old) (H.faults host.new)) (Rose (O.faults out.old) (O.faults out.new)) (Rose (E.faults err.old) (E.faults err.new)) env.now (H.files host.old) words.now
        (record { out = O.written out.old; err = E.written err.old }) (record { out = O.written out.new; err = E.written err.new }) result.0 result.1 }
    ensures files { H.files host.new ≡ H.files host.old }
    ensures asked { IsAsked words.now (H.calls host.old) (H.calls host.new) }
    ensures host_later { H.faults host.old ≤ H.faults host.new }
    ensures out_later { O.faults out.old ≤ O.faults out.new }
    ensures err_later { E.faults err.old ≤ E.faults err.new }
{
    let Some(text) = script_text(words) else {
        return (Ending::Unbuilt, no_report());
    };
    let tree = match loaded(alloc, host) {
        Ok(tree) => tree,
        Err(ending) => return (ending, no_report()),
    };
    let script = match built_script(alloc, text.as_slice()) {
        Ok(script) => script,
        Err(ending) => return (ending, no_report()),
    };
    let Ok(script) = Arc::new(alloc, script) else {
        return (Ending::NoMemory, no_report());
    };
    let Ok(world) = start(alloc, env, tree) else {
        return (Ending::NoMemory, no_report());
    };
    plain(alloc, script, world, LIMITS, host, out, err)
}

/// Tries the line of an ending on standard error, once.
fn tell<E: Sink>(alloc: Global, err: &mut E, ending: Ending)
    ensures told { IsTold (line_of ending) (E.written err.old) (E.written err.new) }
    ensures later { E.faults err.old ≤ E.faults err.new }
{
    match ending {
        Ending::Syntax { line, .. } => tell_syntax(alloc, err, line),
        _ => {
            let _ = send(err, ending.fixed_line());
        }
    }
}

fn tell_syntax<E: Sink>(alloc: Global, err: &mut E, line: u32)
    ensures told { IsTold (syntax_line_of line) (E.written err.old) (E.written err.new) }
    ensures later { E.faults err.old ≤ E.faults err.new }
{
    if let Ok(text) = syntax_line(alloc, line) {
        let _ = send(err, &text);
    }
}

/// All that the program does: reads the words, loads the host's files, once and only where there is a script, runs the script over them and the two sinks, and says
/// on standard error how the run ended, where it was not at the script's own end. The script finds the environment as exported
/// variables, but for entries whose names are no names of variables. The input and the gate are not asked yet.
pub fn top<H: Host, I: Source, O: Sink, E: Sink, G: Gate>(
    alloc: Global,
    words: &[Text],
    env: &[(Text, Text)],
    host: &mut H,
    input: &mut I,
    out: &mut O,
    err: &mut E,
    gate: &G,
) -> Answer
    ensures tops { Tops (Rose (H.faults host.old) (H.faults host.new)) (Rose (O.faults out.old) (O.faults out.new)) (Rose (E.faults err.old) (E.faults err.new)) env.now (H.files host.old) words.now
        (record { out = O.written out.old; err = E.written err.old }) (record { out = O.written out.new; err = E.written err.new }) result.ending result.report }
    ensures complete { IsCompleteFor (Rose (H.faults host.old) (H.faults host.new)) (Rose (O.faults out.old) (O.faults out.new)) (Rose (E.faults err.old) (E.faults err.new)) env.now (H.files host.old) words.now result.ending }
    ensures status { result.status ≡ status_of result.ending }
    ensures files { H.files host.new ≡ H.files host.old }
    ensures asked { IsAsked words.now (H.calls host.old) (H.calls host.new) }
{
    let _ = input;
    let _ = gate;
    let (ending, report) = run_words(alloc, words, env, host, out, err);
    tell(alloc, err, ending);
    Answer {
        status: ending.status(),
        ending,
        report,
    }
}
