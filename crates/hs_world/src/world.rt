//! The state of the shell between two effects.

ghost use Rattle.std.specs.Prelude.{◌≡◌, ◌≢◌, ◌↔◌, ◌≤◌, ◌^◌, ◌+◌, ◌-◌, if◌then◌else◌, drop, reverse, length, leb, [], ◌∷◌, true, false, IsTrue, IfOk, OnOk, OnErr, Err, Some, None, option_copied, unwrap_or};
ghost use Rattle.std.specs.FinMap as map;
ghost use Rattle.hs_world.specs.Files.{IsTree, is_over, names_of};
ghost use Rattle.hs_world.specs.Names.{name_cmp};
ghost use Rattle.hs_world.specs.Tables.{captured_in, emitted_below, fd_number, has_capture, opened, take_up, taker_in};
ghost use Rattle.hs_world.specs.World.{all_tables, At, Apply, change, emitted_length, emitted_over, end_of, file_in, is_valid, length_of, length_with, made, new_world, passed, passes_tree, route_of, shell_of, stream_of};
ghost use Rattle.hs_world.specs.declared.route.Route.TheVariants as route;
ghost use Rattle.hs_world.specs.Shells.{deep, input_back, inputs_back, returned, table_back};
ghost use Rattle.hs_world.specs.declared.effect.Effect.TheVariants as effect;
ghost use Rattle.hs_world.specs.declared.world.Limit.TheVariants as limit;

use crate::effect::{Effect, Fd};
use crate::entry::{Entry, Kind};
use crate::loc::{Loc, Value};
use crate::opts::Opts;
use crate::path::PathName;
use crate::reply::Reply;
use crate::route::{Route, RouteTable, Routes, may_all_stand};
use crate::shell::{Shell, drop_inputs, lower, note};
use crate::table::{KeptTexts, Table};
use crate::tables::{are_ends, captured_below, emit, end_below, ends, taker_below};
use crate::tree::Tree;
use crate::var::Var;
use hs_text::{Text, TextList, copied, same_texts};
use std::alloc::{AllocError, Global};
use std::marker::Model;
use std::mem;

/// What bounds a run.
#[derive(Clone, Copy, Debug, PartialEq, Eq)]
pub struct Limits {
    /// The most bytes of a value that an effect makes: 1,024 to 268,435,456.
    pub bytes: u32,
    /// The most turns: one is taken where a simple command begins.
    pub turns: u32,
}

/// A limit that an effect would pass.
#[derive(Clone, Copy, Debug, PartialEq, Eq)]
pub enum Limit {
    /// The bytes of one value, or the number of effects.
    Bytes,
    /// The bytes and entries of the tree: at most 268,435,456 bytes of files together, and 262,144 entries without the root.
    Tree,
}

/// Why an effect was not applied.
#[derive(Clone, Copy, Debug, PartialEq, Eq)]
pub enum WorldErr {
    NoMemory,
    Full(Limit),
}

/// The most effects that are applied to one world.
pub const MOST_EFFECTS: u64 = 1 << 62;

/// The state that a command finds, and that its effects change.
#[derive(Drop)]
pub struct World {
    alloc: Global,
    tree: Tree,
    vars: Table<Var>,
    funcs: Table<u32>,
    zero: Text,
    params: TextList,
    status: u8,
    cwd: PathName,
    opts: Opts,
    kept: KeptTexts,
    shells: Vec<Shell>,
    input: Text,
    inputs: Vec<Text>,
    table: RouteTable,
    tables: Vec<RouteTable>,
    limit: u32,
    count: u64,
}

impl Model for World {
    ghost use Rattle.std.specs.Prelude.{reverse};
    ghost use Rattle.std.specs.Prelude.{◌≡◌, false};
    ghost use Rattle.hs_world.specs.Files.{files_code, is_over};
    ghost use Rattle.std.specs.Coded.{codes};
    ghost use Rattle.hs_world.specs.Vars.{vars_code, funcs_code, kept_code};
    ghost use Rattle.hs_world.specs.World.{WorldData};

    ghost Value = { WorldData };

    ghost coded = { Prim.hlevel (codes, files_code, vars_code, funcs_code, kept_code) };

    ghost invariant = { λ a. is_over a.tree ≡ false };

    ghost view = { λ a. record {
      tree = a.tree;
      vars = a.vars;
      funcs = a.funcs;
      zero = a.zero;
      params = a.params;
      status = a.status;
      cwd = a.cwd;
      opts = a.opts;
      kept = a.kept;
      shells = reverse a.shells.items;
      input = a.input;
      inputs = reverse a.inputs.items;
      table = a.table;
      tables = reverse a.tables.items;
      limit = a.limit;
      count = a.count;
    } };
}

impl World {
    /// The state in which a script begins. Of a name that stands twice the first variable counts.
    pub fn new(
        alloc: Global,
        tree: Tree,
        vars: Vec<(Text, Var)>,
        zero: Text,
        params: TextList,
        input: Text,
        limits: Limits,
    ) -> Result<World, WorldErr>
        requires least { 1024 ≤ limits.bytes }
        requires most { limits.bytes ≤ 268435456 }
        ensures ok { IfOk result (λ world. world ≡ new_world tree vars.items zero params input limits) }
        ensures full { (result ≡ Err (WorldErr.Full limit.Tree)) ↔ (is_over tree ≡ true) }
        ensures bytes { result ≢ Err (WorldErr.Full limit.Bytes) }
    {
        if tree.is_over() {
            return Err(WorldErr::Full(Limit::Tree));
        }
        let (Ok(vars), Ok(routes)) = (table_of(alloc, vars), Routes::first(alloc)) else {
            return Err(WorldErr::NoMemory);
        };
        Ok(World {
            alloc,
            tree,
            vars,
            funcs: Table::new(alloc),
            zero,
            params,
            status: 0,
            cwd: PathName::root(alloc),
            opts: Opts::none(),
            kept: KeptTexts::new(alloc),
            shells: Vec::new(alloc),
            input,
            inputs: Vec::new(alloc),
            table: RouteTable {
                routes,
                capture: None,
            },
            tables: Vec::new(alloc),
            limit: limits.bytes,
            count: 0,
        })
    }

    /// Each entry of the tree is in a folder: what is no folder has no names.
    pub fn promise(&self)
        ensures { IsTree self.now.tree }
    {
        self.tree.promise();
    }

    /// The status of the last command.
    pub fn status(&self) -> u8
        ensures { result ≡ self.now.status }
    {
        self.status
    }

    /// How many effects were applied.
    pub fn count(&self) -> u64
        ensures { result ≡ self.now.count }
    {
        self.count
    }

    /// The stream of the program that a descriptor leads to.
    pub fn stream(&self, fd: Fd) -> Option<Fd>
        ensures { result ≡ stream_of fd self.now }
    {
        match self.end(fd) {
            Some(Route::Stream(to)) => Some(*to),
            _ => None,
        }
    }

    /// Where a descriptor leads in the end. None is a closed one.
    fn end(&self, fd: Fd) -> Option<&Route>
        ensures { unwrap_or (option_copied result) route.Closed ≡ end_of fd self.now }
    {
        match self.table.routes.get(number_of(fd)) {
            Some(Route::Same(other)) => end_below(*other, self.tables.as_slice()),
            end => end,
        }
    }

    /// The value at a location. It copies the value.
    pub fn at(&self, loc: &Loc) -> Result<Value, AllocError>
        ensures { IfOk result (λ value. value ≡ At self.now loc.now) }
    {
        match loc {
            Loc::Kind(path) => Ok(Value::Kind(self.tree.kind(path.names()))),
            Loc::Bytes(path) => Ok(Value::Bytes(copied(self.tree.file(path.names()))?)),
            Loc::Names(path) => Ok(Value::Names(self.names(path)?)),
            Loc::Var(name) => Ok(Value::Var(copied_var(self.vars.get(name))?)),
            Loc::Func(name) => Ok(Value::Func(self.funcs.get(name).copied())),
            Loc::Params => Ok(Value::Params(self.zero.clone()?, self.params.clone()?)),
            Loc::Status => Ok(Value::Status(self.status)),
            Loc::Cwd => Ok(Value::Cwd(self.cwd.clone()?)),
            Loc::Opts => Ok(Value::Opts(self.opts)),
            Loc::Input => Ok(Value::Input(self.input.clone()?)),
            Loc::Routes => Ok(Value::Routes(self.table.routes.clone()?)),
            Loc::Ends => { Ok(Value::Ends(ends(self.alloc, &self.table, self.tables.as_slice())?)) }
            Loc::Captured => Ok(Value::Captured(self.captured_copy()?)),
            Loc::Kept(descriptor) => Ok(Value::Kept(copied(self.kept.get(*descriptor))?)),
        }
    }

    fn names(&self, path: &PathName) -> Result<Option<TextList>, AllocError>
        ensures { IfOk result (λ names. names ≡ names_of self.now.tree path.now) }
    {
        if self.tree.kind(path.names()) == Kind::Dir {
            Ok(Some(self.tree.names(path.names())?))
        } else {
            Ok(None)
        }
    }

    /// What the innermost capture has taken up. None is nothing.
    fn captured(&self) -> Option<&Text>
        ensures { unwrap_or (option_copied result) [] ≡ captured_in (all_tables self.now) }
    {
        match &self.table.capture {
            Some(text) => Some(text),
            None => captured_below(self.tables.as_slice()),
        }
    }

    fn captured_copy(&self) -> Result<Text, AllocError>
        ensures { IfOk result (λ text. text ≡ captured_in (all_tables self.now)) }
    {
        match self.captured() {
            Some(text) => Ok(text.clone()?),
            None => Ok(Text::new(self.alloc)),
        }
    }

    /// Whether this is the value at a location. It takes no memory.
    pub fn holds(&self, loc: &Loc, value: &Value) -> bool
        ensures { IsTrue result ↔ (At self.now loc.now ≡ value.now) }
    {
        match (loc, value) {
            (Loc::Kind(path), Value::Kind(kind)) => self.tree.kind(path.names()) == *kind,
            (Loc::Bytes(path), Value::Bytes(text)) => {
                same_texts(self.tree.file(path.names()), text.as_ref())
            }
            (Loc::Names(path), Value::Names(names)) => self.has_names(path, names),
            (Loc::Var(name), Value::Var(var)) => same_vars(self.vars.get(name), var.as_ref()),
            (Loc::Func(name), Value::Func(body)) => self.funcs.get(name).copied() == *body,
            (Loc::Params, Value::Params(zero, params)) => {
                self.zero.same(zero) && self.params.same(params)
            }
            (Loc::Status, Value::Status(status)) => self.status == *status,
            (Loc::Cwd, Value::Cwd(path)) => self.cwd.same(path),
            (Loc::Opts, Value::Opts(opts)) => self.opts == *opts,
            (Loc::Input, Value::Input(text)) => self.input.same(text),
            (Loc::Routes, Value::Routes(routes)) => self.table.routes.same(routes),
            (Loc::Ends, Value::Ends(routes)) => {
                are_ends(1, routes.as_slice(), &self.table, self.tables.as_slice())
            }
            (Loc::Captured, Value::Captured(text)) => self.has_captured(text),
            (Loc::Kept(descriptor), Value::Kept(text)) => {
                same_texts(self.kept.get(*descriptor), text.as_ref())
            }
            _ => false,
        }
    }

    fn has_names(&self, path: &PathName, names: &Option<TextList>) -> bool
        ensures { IsTrue result ↔ (names_of self.now.tree path.now ≡ names.now) }
    {
        let is_dir = self.tree.kind(path.names()) == Kind::Dir;
        match names {
            Some(names) => is_dir && self.tree.has_names(path.names(), names.as_slice()),
            None => !is_dir,
        }
    }

    fn has_captured(&self, text: &Text) -> bool
        ensures { IsTrue result ↔ (captured_in (all_tables self.now) ≡ text.now) }
    {
        match self.captured() {
            Some(captured) => captured.same(text),
            None => text.is_empty(),
        }
    }

    /// Whether the effect is valid. It takes no memory.
    pub fn valid(&self, effect: &Effect) -> bool
        ensures { result ≡ is_valid effect.now self.now }
    {
        match effect {
            Effect::Put(path, _) => self.tree.can_put(path),
            Effect::Append(path, _) => self.tree.file(path.names()).is_some(),
            Effect::MakeDir(path) => self.tree.can_make_dir(path),
            Effect::Remove(path) => self.tree.can_remove(path),
            Effect::PopShell => !self.shells.is_empty(),
            Effect::PopInput => !self.inputs.is_empty(),
            Effect::PushRoutes(routes) => routes.is_table(),
            Effect::PopRoutes => !self.tables.is_empty(),
            Effect::SetRoutes(routes) => {
                routes.is_table() && may_all_stand(&self.table, routes.as_slice())
            }
            Effect::SetKept(descriptor, _) => 3 <= *descriptor && *descriptor <= 9,
            _ => true,
        }
    }

    /// The capture that takes up what goes to a descriptor.
    fn taker(&self, fd: Fd) -> Option<&Text>
        ensures { option_copied result ≡ taker_in (fd_number fd) (all_tables self.now) }
    {
        match self.table.routes.get(number_of(fd)) {
            Some(Route::Same(other)) => taker_below(*other, self.tables.as_slice()),
            Some(Route::Capture) => self.table.capture.as_ref(),
            _ => None,
        }
    }

    /// How long what takes up a text is, and how much longer it becomes.
    fn emitted_lengths(&self, fd: Fd, text: &Text) -> (usize, usize)
        ensures { result.0 + result.1 ≡ emitted_length (end_of fd self.now) fd text.now self.now }
    {
        match self.end(fd) {
            Some(Route::File(path)) => lengths_with(self.tree.file(path.names()), text),
            Some(Route::Capture) => lengths_with(self.taker(fd), text),
            _ => (0, 0),
        }
    }

    /// How long what the effect makes is before it, and how much longer it becomes.
    fn lengths(&self, effect: &Effect) -> (usize, usize)
        ensures { result.0 + result.1 ≡ made effect.now self.now }
    {
        match effect {
            Effect::SetVar(_, var) => (0, length_of(&var.value)),
            Effect::Put(_, text) => (0, text.len()),
            Effect::Append(path, text) => lengths_with(self.tree.file(path.names()), text),
            Effect::Emit(fd, text) => self.emitted_lengths(*fd, text),
            Effect::PushInput(text) => (0, text.len()),
            Effect::SetInput(text) => (0, text.len()),
            Effect::SetKept(_, text) => (0, length_of(text)),
            Effect::ExecInput(text) => (0, text.len()),
            _ => (0, 0),
        }
    }

    fn emit_passes(&self, fd: Fd, text: &Text) -> bool
        ensures { result ≡ emitted_over (end_of fd self.now) self.now.tree text.now }
    {
        match self.end(fd) {
            Some(Route::File(path)) => self.tree.append_passes(path.names(), text),
            _ => false,
        }
    }

    /// Whether the tree that the effect makes passes its limit.
    fn passes_tree(&self, effect: &Effect) -> bool
        ensures { result ≡ passes_tree effect.now self.now }
    {
        match effect {
            Effect::Put(path, text) => self.tree.passes_with(path.names(), text.len()),
            Effect::Append(path, text) => self.tree.append_passes(path.names(), text),
            Effect::MakeDir(path) => self.tree.passes_with(path.names(), 0),
            Effect::Emit(fd, text) => self.emit_passes(*fd, text),
            Effect::Replied(reply) => reply.tree.is_over(),
            _ => false,
        }
    }

    /// The limit that the effect would pass here, that of bytes before that of the tree. It takes no memory.
    pub fn fits(&self, effect: &Effect) -> Option<Limit>
        ensures { result ≡ passed effect.now self.now }
    {
        let (old, more) = self.lengths(effect);
        if !within(self.limit, old, more) || self.count >= MOST_EFFECTS {
            return Some(Limit::Bytes);
        }
        if self.passes_tree(effect) {
            Some(Limit::Tree)
        } else {
            None
        }
    }

    /// Applies one effect, which is valid. Refused, the world stays. An Append or an Emit to a file or a capture extends it
    /// in place where no other text shares its bytes.
    pub fn apply(&mut self, effect: &Effect) -> Result<(), WorldErr>
        requires { is_valid effect.now self.old ≡ true }
        ensures ok { OnOk result (self.new ≡ Apply effect.now self.old) }
        ensures fits { OnOk result (passed effect.now self.old ≡ None) }
        ensures err { OnErr result (self.new ≡ self.old) }
        ensures full { (l : Limit) → (result ≡ Err (WorldErr.Full l) ↔ (passed effect.now self.old ≡ Some l)) }
    {
        if let Some(limit) = self.fits(effect) {
            return Err(WorldErr::Full(limit));
        }
        match self.change(effect) {
            Ok(()) => {}
            Err(_) => return Err(WorldErr::NoMemory),
        }
        self.count += 1;
        Ok(())
    }

    fn change(&mut self, effect: &Effect) -> Result<(), AllocError>
        requires valid { is_valid effect.now self.old ≡ true }
        requires fits { passed effect.now self.old ≡ None }
        ensures ok { OnOk result (self.new ≡ change effect.now self.old) }
        ensures err { OnErr result (self.new ≡ self.old) }
    {
        match effect {
            Effect::SetVar(name, var) => self.vars.insert(name.clone()?, var.clone()?)?,
            Effect::UnsetVar(name) => self.vars.remove(name),
            Effect::SetFunc(name, body) => self.funcs.insert(name.clone()?, *body)?,
            Effect::UnsetFunc(name) => self.funcs.remove(name),
            Effect::SetParams(params) => self.params = params.clone()?,
            Effect::SetStatus(status) => self.status = *status,
            Effect::SetCwd(path) => self.cwd = path.clone()?,
            Effect::SetOpts(opts) => self.opts = *opts,
            Effect::Put(path, text) => self.put(path, text)?,
            Effect::Append(path, text) => self.append(path, text)?,
            Effect::MakeDir(path) => self.make_dir(path)?,
            Effect::Remove(path) => self.remove(path),
            Effect::Emit(fd, text) => self.emit(*fd, text)?,
            Effect::PushShell => self.push_shell()?,
            Effect::PopShell => self.pop_shell(),
            Effect::PushInput(text) => self.push_input(text)?,
            Effect::SetInput(text) => self.input = text.clone()?,
            Effect::PopInput => self.pop_input(),
            Effect::PushRoutes(routes) => self.push_routes(routes)?,
            Effect::PopRoutes => self.pop_routes(),
            Effect::SetRoutes(routes) => self.table.routes = routes.clone()?,
            Effect::SetKept(descriptor, text) => self.set_kept(*descriptor, text)?,
            Effect::ExecInput(text) => self.exec_input(text)?,
            Effect::Replied(reply) => self.replied(reply)?,
        }
        Ok(())
    }

    fn put(&mut self, path: &PathName, text: &Text) -> Result<(), AllocError>
        requires valid { is_valid (effect.Put path.now text.now) self.old ≡ true }
        requires fits { passes_tree (effect.Put path.now text.now) self.old ≡ false }
        ensures ok { OnOk result (self.new ≡ change (effect.Put path.now text.now) self.old) }
        ensures err { OnErr result (self.new ≡ self.old) }
    {
        let path = path.clone()?;
        let entry = Entry::File(text.clone()?);
        self.tree.set(path, entry)
    }

    fn append(&mut self, path: &PathName, text: &Text) -> Result<(), AllocError>
        requires { passes_tree (effect.Append path.now text.now) self.old ≡ false }
        ensures ok { OnOk result (self.new ≡ change (effect.Append path.now text.now) self.old) }
        ensures err { OnErr result (self.new ≡ self.old) }
    {
        self.tree.append(path, text)
    }

    fn make_dir(&mut self, path: &PathName) -> Result<(), AllocError>
        requires valid { is_valid (effect.MakeDir path.now) self.old ≡ true }
        requires fits { passes_tree (effect.MakeDir path.now) self.old ≡ false }
        ensures ok { OnOk result (self.new ≡ change (effect.MakeDir path.now) self.old) }
        ensures err { OnErr result (self.new ≡ self.old) }
    {
        let path = path.clone()?;
        self.tree.set(path, Entry::Dir)
    }

    fn remove(&mut self, path: &PathName)
        requires { is_valid (effect.Remove path.now) self.old ≡ true }
        ensures { self.new ≡ change (effect.Remove path.now) self.old }
    {
        self.tree.remove(path);
    }

    /// The path of the file that a descriptor leads to.
    fn file_of(&self, fd: Fd) -> Result<Option<PathName>, AllocError>
        ensures { IfOk result (λ path. path ≡ file_in (end_of fd self.now)) }
    {
        match self.end(fd) {
            Some(Route::File(path)) => Ok(Some(path.clone()?)),
            _ => Ok(None),
        }
    }

    fn emit(&mut self, fd: Fd, text: &Text) -> Result<(), AllocError>
        requires { passes_tree (effect.Emit fd text.now) self.old ≡ false }
        ensures ok { OnOk result (self.new ≡ change (effect.Emit fd text.now) self.old) }
        ensures err { OnErr result (self.new ≡ self.old) }
    {
        match self.file_of(fd)? {
            Some(path) => self.append(&path, text),
            None => self.emit_to_tables(fd, text),
        }
    }

    fn emit_to_tables(&mut self, fd: Fd, text: &Text) -> Result<(), AllocError>
        ensures ok { OnOk result (self.new ≡ record self.old { table = take_up (route_of fd self.old) text.now self.old.table; tables = emitted_below (route_of fd self.old) text.now self.old.tables }) }
        ensures err { OnErr result (self.new ≡ self.old) }
    {
        emit(
            number_of(fd),
            text,
            &mut self.table,
            self.tables.as_mut_slice(),
        )
    }

    /// What a subshell environment that begins here gives back.
    fn shell(&self) -> Result<Shell, AllocError>
        ensures { IfOk result (λ shell. shell ≡ shell_of self.now) }
    {
        Ok(Shell {
            vars: self.vars.clone()?,
            funcs: self.funcs.clone()?,
            params: self.params.clone()?,
            cwd: self.cwd.clone()?,
            opts: self.opts,
            kept: self.kept.clone()?,
            routes: self.table.routes.clone()?,
            tables: self.tables.len(),
            lower: false,
            inputs: self.inputs.len(),
            input: None,
        })
    }

    fn push_shell(&mut self) -> Result<(), AllocError>
        ensures ok { OnOk result (self.new ≡ change effect.PushShell self.old) }
        ensures err { OnErr result (self.new ≡ self.old) }
    {
        let shell = self.shell()?;
        self.shells.push(shell)?;
        Ok(())
    }

    fn pop_shell(&mut self)
        ensures { self.new ≡ change effect.PopShell self.old }
    {
        if let Some(shell) = self.shells.pop() {
            self.restore(shell);
        }
    }

    fn restore(&mut self, shell: Shell)
        ensures { self.new ≡ record self.old {
          vars = shell.vars;
          funcs = shell.funcs;
          params = shell.params;
          cwd = shell.cwd;
          opts = shell.opts;
          kept = shell.kept;
          table = table_back (shell ∷ []) (length self.old.tables) self.old.table;
          input = input_back (shell ∷ []) self.old.input self.old.inputs;
          inputs = inputs_back (shell ∷ []) self.old.inputs;
        } }
    {
        let back = shell.tables == self.tables.len() && !shell.lower;
        give_back_routes(&mut self.table, shell.routes, back);
        give_back_input(&mut self.input, &mut self.inputs, shell.inputs, shell.input);
        self.vars = shell.vars;
        self.funcs = shell.funcs;
        self.params = shell.params;
        self.cwd = shell.cwd;
        self.opts = shell.opts;
        self.kept = shell.kept;
    }

    fn push_input(&mut self, text: &Text) -> Result<(), AllocError>
        ensures ok { OnOk result (self.new ≡ change (effect.PushInput text.now) self.old) }
        ensures err { OnErr result (self.new ≡ self.old) }
    {
        let text = text.clone()?;
        let input = mem::replace(&mut self.input, text);
        if let Err(failed) = self.inputs.push(input) {
            self.input = failed.value;
            return Err(AllocError);
        }
        Ok(())
    }

    fn pop_input(&mut self)
        ensures { self.new ≡ change effect.PopInput self.old }
    {
        if let Some(text) = self.inputs.pop() {
            self.input = text;
        }
    }

    fn push_routes(&mut self, routes: &Routes) -> Result<(), AllocError>
        ensures ok { OnOk result (self.new ≡ change (effect.PushRoutes routes.now) self.old) }
        ensures err { OnErr result (self.new ≡ self.old) }
    {
        let table = new_table(self.alloc, routes)?;
        let table = mem::replace(&mut self.table, table);
        if let Err(failed) = self.tables.push(table) {
            self.table = failed.value;
            return Err(AllocError);
        }
        Ok(())
    }

    fn pop_routes(&mut self)
        ensures { self.new ≡ change effect.PopRoutes self.old }
    {
        if let Some(table) = self.tables.pop() {
            self.table = table;
        }
        lower(self.shells.as_mut_slice(), self.tables.len());
    }

    fn set_kept(&mut self, descriptor: u8, text: &Option<Text>) -> Result<(), AllocError>
        ensures ok { OnOk result (self.new ≡ change (effect.SetKept descriptor text.now) self.old) }
        ensures err { OnErr result (self.new ≡ self.old) }
    {
        match text {
            Some(text) => self.kept.insert(descriptor, text.clone()?),
            None => {
                self.kept.remove(descriptor);
                Ok(())
            }
        }
    }

    fn exec_input(&mut self, text: &Text) -> Result<(), AllocError>
        ensures ok { OnOk result (self.new ≡ change (effect.ExecInput text.now) self.old) }
        ensures err { OnErr result (self.new ≡ self.old) }
    {
        let text = text.clone()?;
        let old = mem::replace(&mut self.input, text);
        note(self.shells.as_mut_slice(), self.inputs.len(), old);
        Ok(())
    }

    fn replied(&mut self, reply: &Reply) -> Result<(), AllocError>
        requires { passes_tree (effect.Replied reply.now) self.old ≡ false }
        ensures ok { OnOk result (self.new ≡ change (effect.Replied reply.now) self.old) }
        ensures err { OnErr result (self.new ≡ self.old) }
    {
        self.tree = reply.tree.clone()?;
        self.input = Text::new(self.alloc);
        Ok(())
    }
}

impl Clone for World {
    ghost is_clone = { λ x y. y ≡ x };

    fn clone(&self) -> Result<World, AllocError> {
        Ok(World {
            alloc: self.alloc,
            tree: self.tree.clone()?,
            vars: self.vars.clone()?,
            funcs: self.funcs.clone()?,
            zero: self.zero.clone()?,
            params: self.params.clone()?,
            status: self.status,
            cwd: self.cwd.clone()?,
            opts: self.opts,
            kept: self.kept.clone()?,
            shells: self.shells.clone()?,
            input: self.input.clone()?,
            inputs: self.inputs.clone()?,
            table: self.table.clone()?,
            tables: self.tables.clone()?,
            limit: self.limit,
            count: self.count,
        })
    }
}

/// A table of these routes, which opens a capture where one of them is `Capture`.
fn new_table(alloc: Global, routes: &Routes) -> Result<RouteTable, AllocError>
    ensures { IfOk result (λ table. table ≡ record { routes = routes.now; capture = opened (has_capture routes.now) }) }
{
    let routes = routes.clone()?;
    if routes.has_capture() {
        return Ok(RouteTable {
            routes,
            capture: Some(Text::new(alloc)),
        });
    }
    Ok(RouteTable {
        routes,
        capture: None,
    })
}

fn give_back_routes(table: &mut RouteTable, routes: Routes, back: bool)
    ensures { table.new ≡ record table.old { routes = if back then routes else table.old.routes } }
{
    if back {
        table.routes = routes;
    }
}

/// Takes texts of standard input away down to a depth, and gives the one that is held back where the stack has that depth.
fn give_back_input(input: &mut Text, below: &mut Vec<Text>, inputs: usize, held: Option<Text>)
    ensures input { input.new ≡ returned (leb inputs (length below.old.items)) held (deep (length below.old.items - inputs) input.old (reverse below.old.items)) }
    ensures below { reverse below.new.items ≡ drop (length below.old.items - inputs) (reverse below.old.items) }
{
    let stands = inputs <= below.len();
    drop_inputs(input, below, inputs);
    if stands {
        if let Some(old) = held {
            *input = old;
        }
    }
}

fn length_of(text: &Option<Text>) -> usize
    ensures { result ≡ length_of text.now }
{
    match text {
        Some(text) => text.len(),
        None => 0,
    }
}

/// How long a text is and how long the one behind it, where it is there.
fn lengths_with(old: Option<&Text>, more: &Text) -> (usize, usize)
    ensures { result.0 + result.1 ≡ length_with (option_copied old.entry) more.now }
{
    match old {
        Some(old) => (old.len(), more.len()),
        None => (0, 0),
    }
}

fn within(limit: u32, old: usize, more: usize) -> bool
    ensures { result ≡ leb (old + more) limit }
{
    let limit = limit as usize;
    old <= limit && more <= limit - old
}

fn number_of(fd: Fd) -> u8
    ensures { result ≡ fd_number fd }
{
    match fd {
        Fd::One => 1,
        Fd::Two => 2,
    }
}

/// The variables by name. Of a name that stands twice the first counts.
fn table_of(alloc: Global, vars: Vec<(Text, Var)>) -> Result<Table<Var>, AllocError>
    ensures { IfOk result (λ table. table ≡ map.from_entries {R = name_cmp} vars.items) }
{
    let mut vars = vars;
    let mut table = Table::new(alloc);
    while let Some((name, var)) = vars.pop() {
        table.insert(name, var)?;
    }
    Ok(table)
}

fn copied_var(var: Option<&Var>) -> Result<Option<Var>, AllocError>
    ensures { IfOk result (λ copy. copy ≡ option_copied var.entry) }
{
    match var {
        Some(var) => Ok(Some(var.clone()?)),
        None => Ok(None),
    }
}

/// Whether the two are equal, or neither is there.
fn same_vars(a: Option<&Var>, b: Option<&Var>) -> bool
    ensures { IsTrue result ↔ (option_copied a.entry ≡ option_copied b.entry) }
{
    match (a, b) {
        (Some(a), Some(b)) => a.same(b),
        (None, None) => true,
        _ => false,
    }
}
