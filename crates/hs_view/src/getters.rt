//! Each location by itself. What is asked of a base that does not write is recorded once, as by `View::get`.

ghost use Rattle.std.specs.Prelude.{◌≡◌, ◌≢◌, ◌≤◌, ◌<◌, ◌↔◌, true, false, IfOk, Err};
ghost use Rattle.std.specs.FinMap as map;
ghost use Rattle.hs_view.specs.Causes.{Rose};
ghost use Rattle.hs_view.specs.Seen.{Still};
ghost use Rattle.hs_view.specs.Size.{trace_size};
ghost use Rattle.hs_view.specs.View.{Keeps, Showed};
ghost use Rattle.hs_world.specs.Files.{bytes_of, entry_at, kind_of, names_of};
ghost use Rattle.hs_world.specs.Tables.{captured_in, ends_of};
ghost use Rattle.hs_world.specs.World.{WorldData, all_tables};

use crate::base::Base;
use crate::halt::{Halt, SpentKind};
use crate::view::View;
use hs_text::{Text, TextList};
use hs_world::{Kind, Loc, Opts, PathName, Routes, Value, Var};

impl<B: Base> View<B> {
    /// The kind of what a path has.
    pub fn kind(&mut self, path: &PathName) -> Result<Kind, Halt>
        ensures answer { IfOk result (λ kind. (u : WorldData) → Showed B.seen self.old self.new u → kind_of (entry_at u.tree path.now) ≡ kind) }
        ensures effects { self.new.effects ≡ self.old.effects }
        ensures world { Still B.seen self.old.base self.new.base }
        ensures keeps { Keeps B.seen self.old self.new result }
        ensures fault { result ≡ Err Halt.Fault → Rose (B.seen.tells self.old.base).faults (B.seen.tells self.new.base).faults }
        ensures trace { (B.seen.tells self.old.base).writes ≡ false → trace_size self.old.reads self.old.effects ≤ self.old.trace → (result ≡ Err Halt.Trace ↔ self.new.trace < trace_size self.new.reads self.new.effects) }
        ensures through { (B.seen.tells self.old.base).writes ≡ true → result ≢ Err Halt.Trace }
        ensures spent { (k : SpentKind) → result ≢ Err (Halt.Spent k) }
        ensures outside { result ≢ Err Halt.Outside }
    {
        let loc = Loc::Kind(path.clone()?);
        match self.get(&loc)? {
            Value::Kind(kind) => Ok(kind),
            _ => unreachable!(),
        }
    }

    /// The bytes of a file. None is for what is no file.
    pub fn bytes(&mut self, path: &PathName) -> Result<Option<Text>, Halt>
        ensures answer { IfOk result (λ bytes. (u : WorldData) → Showed B.seen self.old self.new u → bytes_of (entry_at u.tree path.now) ≡ bytes) }
        ensures effects { self.new.effects ≡ self.old.effects }
        ensures world { Still B.seen self.old.base self.new.base }
        ensures keeps { Keeps B.seen self.old self.new result }
        ensures fault { result ≡ Err Halt.Fault → Rose (B.seen.tells self.old.base).faults (B.seen.tells self.new.base).faults }
        ensures trace { (B.seen.tells self.old.base).writes ≡ false → trace_size self.old.reads self.old.effects ≤ self.old.trace → (result ≡ Err Halt.Trace ↔ self.new.trace < trace_size self.new.reads self.new.effects) }
        ensures through { (B.seen.tells self.old.base).writes ≡ true → result ≢ Err Halt.Trace }
        ensures spent { (k : SpentKind) → result ≢ Err (Halt.Spent k) }
        ensures outside { result ≢ Err Halt.Outside }
    {
        let loc = Loc::Bytes(path.clone()?);
        match self.get(&loc)? {
            Value::Bytes(bytes) => Ok(bytes),
            _ => unreachable!(),
        }
    }

    /// The names of the entries of a folder, in order. None is for what is no folder.
    pub fn names(&mut self, path: &PathName) -> Result<Option<TextList>, Halt>
        ensures answer { IfOk result (λ names. (u : WorldData) → Showed B.seen self.old self.new u → names_of u.tree path.now ≡ names) }
        ensures effects { self.new.effects ≡ self.old.effects }
        ensures world { Still B.seen self.old.base self.new.base }
        ensures keeps { Keeps B.seen self.old self.new result }
        ensures fault { result ≡ Err Halt.Fault → Rose (B.seen.tells self.old.base).faults (B.seen.tells self.new.base).faults }
        ensures trace { (B.seen.tells self.old.base).writes ≡ false → trace_size self.old.reads self.old.effects ≤ self.old.trace → (result ≡ Err Halt.Trace ↔ self.new.trace < trace_size self.new.reads self.new.effects) }
        ensures through { (B.seen.tells self.old.base).writes ≡ true → result ≢ Err Halt.Trace }
        ensures spent { (k : SpentKind) → result ≢ Err (Halt.Spent k) }
        ensures outside { result ≢ Err Halt.Outside }
    {
        let loc = Loc::Names(path.clone()?);
        match self.get(&loc)? {
            Value::Names(names) => Ok(names),
            _ => unreachable!(),
        }
    }

    /// A variable.
    pub fn var(&mut self, name: &Text) -> Result<Option<Var>, Halt>
        ensures answer { IfOk result (λ var. (u : WorldData) → Showed B.seen self.old self.new u → map.get u.vars name.now ≡ var) }
        ensures effects { self.new.effects ≡ self.old.effects }
        ensures world { Still B.seen self.old.base self.new.base }
        ensures keeps { Keeps B.seen self.old self.new result }
        ensures fault { result ≡ Err Halt.Fault → Rose (B.seen.tells self.old.base).faults (B.seen.tells self.new.base).faults }
        ensures trace { (B.seen.tells self.old.base).writes ≡ false → trace_size self.old.reads self.old.effects ≤ self.old.trace → (result ≡ Err Halt.Trace ↔ self.new.trace < trace_size self.new.reads self.new.effects) }
        ensures through { (B.seen.tells self.old.base).writes ≡ true → result ≢ Err Halt.Trace }
        ensures spent { (k : SpentKind) → result ≢ Err (Halt.Spent k) }
        ensures outside { result ≢ Err Halt.Outside }
    {
        let loc = Loc::Var(name.clone()?);
        match self.get(&loc)? {
            Value::Var(var) => Ok(var),
            _ => unreachable!(),
        }
    }

    /// The number of the body of a function.
    pub fn func(&mut self, name: &Text) -> Result<Option<u32>, Halt>
        ensures answer { IfOk result (λ body. (u : WorldData) → Showed B.seen self.old self.new u → map.get u.funcs name.now ≡ body) }
        ensures effects { self.new.effects ≡ self.old.effects }
        ensures world { Still B.seen self.old.base self.new.base }
        ensures keeps { Keeps B.seen self.old self.new result }
        ensures fault { result ≡ Err Halt.Fault → Rose (B.seen.tells self.old.base).faults (B.seen.tells self.new.base).faults }
        ensures trace { (B.seen.tells self.old.base).writes ≡ false → trace_size self.old.reads self.old.effects ≤ self.old.trace → (result ≡ Err Halt.Trace ↔ self.new.trace < trace_size self.new.reads self.new.effects) }
        ensures through { (B.seen.tells self.old.base).writes ≡ true → result ≢ Err Halt.Trace }
        ensures spent { (k : SpentKind) → result ≢ Err (Halt.Spent k) }
        ensures outside { result ≢ Err Halt.Outside }
    {
        let loc = Loc::Func(name.clone()?);
        match self.get(&loc)? {
            Value::Func(body) => Ok(body),
            _ => unreachable!(),
        }
    }

    /// `$0` and the positional parameters.
    pub fn params(&mut self) -> Result<(Text, TextList), Halt>
        ensures answer { IfOk result (λ both. (u : WorldData) → Showed B.seen self.old self.new u → (u.zero, u.params) ≡ both) }
        ensures effects { self.new.effects ≡ self.old.effects }
        ensures world { Still B.seen self.old.base self.new.base }
        ensures keeps { Keeps B.seen self.old self.new result }
        ensures fault { result ≡ Err Halt.Fault → Rose (B.seen.tells self.old.base).faults (B.seen.tells self.new.base).faults }
        ensures trace { (B.seen.tells self.old.base).writes ≡ false → trace_size self.old.reads self.old.effects ≤ self.old.trace → (result ≡ Err Halt.Trace ↔ self.new.trace < trace_size self.new.reads self.new.effects) }
        ensures through { (B.seen.tells self.old.base).writes ≡ true → result ≢ Err Halt.Trace }
        ensures spent { (k : SpentKind) → result ≢ Err (Halt.Spent k) }
        ensures outside { result ≢ Err Halt.Outside }
    {
        match self.get(&Loc::Params)? {
            Value::Params(zero, params) => Ok((zero, params)),
            _ => unreachable!(),
        }
    }

    /// The status of the last command.
    pub fn status(&mut self) -> Result<u8, Halt>
        ensures answer { IfOk result (λ status. (u : WorldData) → Showed B.seen self.old self.new u → u.status ≡ status) }
        ensures effects { self.new.effects ≡ self.old.effects }
        ensures world { Still B.seen self.old.base self.new.base }
        ensures keeps { Keeps B.seen self.old self.new result }
        ensures fault { result ≡ Err Halt.Fault → Rose (B.seen.tells self.old.base).faults (B.seen.tells self.new.base).faults }
        ensures trace { (B.seen.tells self.old.base).writes ≡ false → trace_size self.old.reads self.old.effects ≤ self.old.trace → (result ≡ Err Halt.Trace ↔ self.new.trace < trace_size self.new.reads self.new.effects) }
        ensures through { (B.seen.tells self.old.base).writes ≡ true → result ≢ Err Halt.Trace }
        ensures spent { (k : SpentKind) → result ≢ Err (Halt.Spent k) }
        ensures outside { result ≢ Err Halt.Outside }
    {
        match self.get(&Loc::Status)? {
            Value::Status(status) => Ok(status),
            _ => unreachable!(),
        }
    }

    /// The current folder.
    pub fn cwd(&mut self) -> Result<PathName, Halt>
        ensures answer { IfOk result (λ path. (u : WorldData) → Showed B.seen self.old self.new u → u.cwd ≡ path) }
        ensures effects { self.new.effects ≡ self.old.effects }
        ensures world { Still B.seen self.old.base self.new.base }
        ensures keeps { Keeps B.seen self.old self.new result }
        ensures fault { result ≡ Err Halt.Fault → Rose (B.seen.tells self.old.base).faults (B.seen.tells self.new.base).faults }
        ensures trace { (B.seen.tells self.old.base).writes ≡ false → trace_size self.old.reads self.old.effects ≤ self.old.trace → (result ≡ Err Halt.Trace ↔ self.new.trace < trace_size self.new.reads self.new.effects) }
        ensures through { (B.seen.tells self.old.base).writes ≡ true → result ≢ Err Halt.Trace }
        ensures spent { (k : SpentKind) → result ≢ Err (Halt.Spent k) }
        ensures outside { result ≢ Err Halt.Outside }
    {
        match self.get(&Loc::Cwd)? {
            Value::Cwd(path) => Ok(path),
            _ => unreachable!(),
        }
    }

    /// The options of the shell.
    pub fn opts(&mut self) -> Result<Opts, Halt>
        ensures answer { IfOk result (λ opts. (u : WorldData) → Showed B.seen self.old self.new u → u.opts ≡ opts) }
        ensures effects { self.new.effects ≡ self.old.effects }
        ensures world { Still B.seen self.old.base self.new.base }
        ensures keeps { Keeps B.seen self.old self.new result }
        ensures fault { result ≡ Err Halt.Fault → Rose (B.seen.tells self.old.base).faults (B.seen.tells self.new.base).faults }
        ensures trace { (B.seen.tells self.old.base).writes ≡ false → trace_size self.old.reads self.old.effects ≤ self.old.trace → (result ≡ Err Halt.Trace ↔ self.new.trace < trace_size self.new.reads self.new.effects) }
        ensures through { (B.seen.tells self.old.base).writes ≡ true → result ≢ Err Halt.Trace }
        ensures spent { (k : SpentKind) → result ≢ Err (Halt.Spent k) }
        ensures outside { result ≢ Err Halt.Outside }
    {
        match self.get(&Loc::Opts)? {
            Value::Opts(opts) => Ok(opts),
            _ => unreachable!(),
        }
    }

    /// What standard input has left.
    pub fn input(&mut self) -> Result<Text, Halt>
        ensures answer { IfOk result (λ text. (u : WorldData) → Showed B.seen self.old self.new u → u.input ≡ text) }
        ensures effects { self.new.effects ≡ self.old.effects }
        ensures world { Still B.seen self.old.base self.new.base }
        ensures keeps { Keeps B.seen self.old self.new result }
        ensures fault { result ≡ Err Halt.Fault → Rose (B.seen.tells self.old.base).faults (B.seen.tells self.new.base).faults }
        ensures trace { (B.seen.tells self.old.base).writes ≡ false → trace_size self.old.reads self.old.effects ≤ self.old.trace → (result ≡ Err Halt.Trace ↔ self.new.trace < trace_size self.new.reads self.new.effects) }
        ensures through { (B.seen.tells self.old.base).writes ≡ true → result ≢ Err Halt.Trace }
        ensures spent { (k : SpentKind) → result ≢ Err (Halt.Spent k) }
        ensures outside { result ≢ Err Halt.Outside }
    {
        match self.get(&Loc::Input)? {
            Value::Input(text) => Ok(text),
            _ => unreachable!(),
        }
    }

    /// Where the descriptors 1 to 9 lead by the innermost table.
    pub fn routes(&mut self) -> Result<Routes, Halt>
        ensures answer { IfOk result (λ routes. (u : WorldData) → Showed B.seen self.old self.new u → u.table.routes ≡ routes) }
        ensures effects { self.new.effects ≡ self.old.effects }
        ensures world { Still B.seen self.old.base self.new.base }
        ensures keeps { Keeps B.seen self.old self.new result }
        ensures fault { result ≡ Err Halt.Fault → Rose (B.seen.tells self.old.base).faults (B.seen.tells self.new.base).faults }
        ensures trace { (B.seen.tells self.old.base).writes ≡ false → trace_size self.old.reads self.old.effects ≤ self.old.trace → (result ≡ Err Halt.Trace ↔ self.new.trace < trace_size self.new.reads self.new.effects) }
        ensures through { (B.seen.tells self.old.base).writes ≡ true → result ≢ Err Halt.Trace }
        ensures spent { (k : SpentKind) → result ≢ Err (Halt.Spent k) }
        ensures outside { result ≢ Err Halt.Outside }
    {
        match self.get(&Loc::Routes)? {
            Value::Routes(routes) => Ok(routes),
            _ => unreachable!(),
        }
    }

    /// Where the descriptors 1 to 9 lead in the end.
    pub fn ends(&mut self) -> Result<Routes, Halt>
        ensures answer { IfOk result (λ routes. (u : WorldData) → Showed B.seen self.old self.new u → ends_of (all_tables u) ≡ routes) }
        ensures effects { self.new.effects ≡ self.old.effects }
        ensures world { Still B.seen self.old.base self.new.base }
        ensures keeps { Keeps B.seen self.old self.new result }
        ensures fault { result ≡ Err Halt.Fault → Rose (B.seen.tells self.old.base).faults (B.seen.tells self.new.base).faults }
        ensures trace { (B.seen.tells self.old.base).writes ≡ false → trace_size self.old.reads self.old.effects ≤ self.old.trace → (result ≡ Err Halt.Trace ↔ self.new.trace < trace_size self.new.reads self.new.effects) }
        ensures through { (B.seen.tells self.old.base).writes ≡ true → result ≢ Err Halt.Trace }
        ensures spent { (k : SpentKind) → result ≢ Err (Halt.Spent k) }
        ensures outside { result ≢ Err Halt.Outside }
    {
        match self.get(&Loc::Ends)? {
            Value::Ends(routes) => Ok(routes),
            _ => unreachable!(),
        }
    }

    /// What the innermost capture has taken up.
    pub fn captured(&mut self) -> Result<Text, Halt>
        ensures answer { IfOk result (λ text. (u : WorldData) → Showed B.seen self.old self.new u → captured_in (all_tables u) ≡ text) }
        ensures effects { self.new.effects ≡ self.old.effects }
        ensures world { Still B.seen self.old.base self.new.base }
        ensures keeps { Keeps B.seen self.old self.new result }
        ensures fault { result ≡ Err Halt.Fault → Rose (B.seen.tells self.old.base).faults (B.seen.tells self.new.base).faults }
        ensures trace { (B.seen.tells self.old.base).writes ≡ false → trace_size self.old.reads self.old.effects ≤ self.old.trace → (result ≡ Err Halt.Trace ↔ self.new.trace < trace_size self.new.reads self.new.effects) }
        ensures through { (B.seen.tells self.old.base).writes ≡ true → result ≢ Err Halt.Trace }
        ensures spent { (k : SpentKind) → result ≢ Err (Halt.Spent k) }
        ensures outside { result ≢ Err Halt.Outside }
    {
        match self.get(&Loc::Captured)? {
            Value::Captured(text) => Ok(text),
            _ => unreachable!(),
        }
    }

    /// What a descriptor that was opened for reading has left. None is a closed one.
    pub fn kept(&mut self, descriptor: u8) -> Result<Option<Text>, Halt>
        ensures answer { IfOk result (λ text. (u : WorldData) → Showed B.seen self.old self.new u → map.get u.kept descriptor ≡ text) }
        ensures effects { self.new.effects ≡ self.old.effects }
        ensures world { Still B.seen self.old.base self.new.base }
        ensures keeps { Keeps B.seen self.old self.new result }
        ensures fault { result ≡ Err Halt.Fault → Rose (B.seen.tells self.old.base).faults (B.seen.tells self.new.base).faults }
        ensures trace { (B.seen.tells self.old.base).writes ≡ false → trace_size self.old.reads self.old.effects ≤ self.old.trace → (result ≡ Err Halt.Trace ↔ self.new.trace < trace_size self.new.reads self.new.effects) }
        ensures through { (B.seen.tells self.old.base).writes ≡ true → result ≢ Err Halt.Trace }
        ensures spent { (k : SpentKind) → result ≢ Err (Halt.Spent k) }
        ensures outside { result ≢ Err Halt.Outside }
    {
        let loc = Loc::Kept(descriptor);
        match self.get(&loc)? {
            Value::Kept(text) => Ok(text),
            _ => unreachable!(),
        }
    }
}
