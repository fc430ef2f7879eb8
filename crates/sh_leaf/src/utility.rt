//! The utilities that are built, by their names.

ghost use Rattle.std.specs.Prelude.{◌≡◌, nat_eq};
ghost use Rattle.std.specs.Cmp.Lexicographic.{pointwise};
ghost use Rattle.hs_view.specs.Acts.{Acts};
ghost use Rattle.sh_leaf.specs.Utilities as spec;

use hs_text::TextList;
use hs_view::{Base, Halt, View};
use std::alloc::Global;
use util_lines::{comm, grep, sort, tr, uniq};
use util_print::{basename, dirname, echo, printf, pwd};
use util_test::{bracket, false_, test_, true_};
use util_text::{cat, cut, fold, head, paste, tail, tee, wc};

/// A utility that is built.
#[derive(Clone, Copy, Debug, PartialEq, Eq)]
pub enum Utility {
    Basename,
    Bracket,
    Cat,
    Comm,
    Cut,
    Dirname,
    Echo,
    False,
    Fold,
    Grep,
    Head,
    Paste,
    Printf,
    Pwd,
    Sort,
    Tail,
    Tee,
    Test,
    Tr,
    True,
    Uniq,
    Wc,
}

fn is(name: &[u8], text: &[u8]) -> bool
    ensures { result ≡ pointwise nat_eq name.now text.now }
{
    name == text
}

/// The utility of util_print that has this name.
fn print_named(name: &[u8]) -> Option<Utility>
    ensures { result ≡ spec.beside name.now spec.print_names }
{
    if is(name, b"basename") {
        Some(Utility::Basename)
    } else if is(name, b"dirname") {
        Some(Utility::Dirname)
    } else if is(name, b"echo") {
        Some(Utility::Echo)
    } else if is(name, b"printf") {
        Some(Utility::Printf)
    } else if is(name, b"pwd") {
        Some(Utility::Pwd)
    } else {
        None
    }
}

/// The utility of util_text that has this name.
fn text_named(name: &[u8]) -> Option<Utility>
    ensures { result ≡ spec.beside name.now spec.text_names }
{
    match name {
        b"cat" => Some(Utility::Cat),
        b"cut" => Some(Utility::Cut),
        b"fold" => Some(Utility::Fold),
        b"head" => Some(Utility::Head),
        b"paste" => Some(Utility::Paste),
        b"tail" => Some(Utility::Tail),
        b"tee" => Some(Utility::Tee),
        b"wc" => Some(Utility::Wc),
        _ => None,
    }
}

/// The utility of util_lines that has this name.
fn line_named(name: &[u8]) -> Option<Utility>
    ensures { result ≡ spec.beside name.now spec.line_names }
{
    match name {
        b"comm" => Some(Utility::Comm),
        b"grep" => Some(Utility::Grep),
        b"sort" => Some(Utility::Sort),
        b"tr" => Some(Utility::Tr),
        b"uniq" => Some(Utility::Uniq),
        _ => None,
    }
}

/// The utility of util_test that has this name.
fn test_named(name: &[u8]) -> Option<Utility>
    ensures { result ≡ spec.beside name.now spec.test_names }
{
    match name {
        b"[" => Some(Utility::Bracket),
        b"false" => Some(Utility::False),
        b"test" => Some(Utility::Test),
        b"true" => Some(Utility::True),
        _ => None,
    }
}

/// The utility that has this name.
pub fn named(name: &[u8]) -> Option<Utility>
    ensures { result ≡ spec.named name.now }
{
    print_named(name)
        .or(text_named(name))
        .or(line_named(name))
        .or(test_named(name))
}

impl Utility {
    /// Runs the utility with these arguments, and answers its status.
    pub fn run<B: Base>(
        self,
        alloc: Global,
        args: &TextList,
        view: &mut View<B>,
    ) -> Result<u8, Halt>
        ensures { Acts B.seen (spec.does self args.now) view.old view.new result }
    {
        match self {
            Utility::Basename => basename(alloc, args, view),
            Utility::Bracket => bracket(alloc, args, view),
            Utility::Cat => cat(alloc, args, view),
            Utility::Comm => comm(alloc, args, view),
            Utility::Cut => cut(alloc, args, view),
            Utility::Dirname => dirname(alloc, args, view),
            Utility::Echo => echo(alloc, args, view),
            Utility::False => false_(alloc, args, view),
            Utility::Fold => fold(alloc, args, view),
            Utility::Grep => grep(alloc, args, view),
            Utility::Head => head(alloc, args, view),
            Utility::Paste => paste(alloc, args, view),
            Utility::Printf => printf(alloc, args, view),
            Utility::Pwd => pwd(alloc, args, view),
            Utility::Sort => sort(alloc, args, view),
            Utility::Tail => tail(alloc, args, view),
            Utility::Tee => tee(alloc, args, view),
            Utility::Test => test_(alloc, args, view),
            Utility::Tr => tr(alloc, args, view),
            Utility::True => true_(alloc, args, view),
            Utility::Uniq => uniq(alloc, args, view),
            Utility::Wc => wc(alloc, args, view),
        }
    }
}
