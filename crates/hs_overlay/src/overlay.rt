//! Tables of what effects make of a state that was not read. An effect costs O(log m) comparisons beside what is moved,
//! where m effects came before; a subshell environment copies the tables of names once.

ghost use Rattle.std.specs.Prelude.{◌≡◌, ◌^◌, ◌-◌, length, min, OnOk, IfOk, option_copied};
ghost use Rattle.hs_world.specs.Tables.{fd_number};
ghost use Rattle.hs_world.specs.declared.effect.Effect.TheVariants as effect;
ghost use Rattle.hs_overlay.specs.Overlay.{has_own, no_overlay, over_step, popped_shell, saved_of};
ghost use Rattle.hs_overlay.specs.Shells.{goes_back};
ghost use Rattle.hs_overlay.specs.Inputs.{inputs_returned};
ghost use Rattle.hs_overlay.specs.Routing.{routes_returned};

use crate::files::Files;
use crate::inputs::Inputs;
use crate::routing::Routing;
use crate::scope::Scope;
use crate::shells::{Saved, lower, note};
use hs_text::{Text, TextList, copied};
use hs_world::{Depth, Effect, Entry, Fd, Opts, PathName, Reply, Routes, Var};
use std::alloc::{AllocError, Global};
use std::marker::Model;

/// What a command's own effects make of a state. It has nothing of the state itself, but what is known of the base's
/// tables of routes.
#[derive(Drop)]
pub struct Overlay {
    pub(crate) alloc: Global,
    pub(crate) scope: Scope,
    pub(crate) status: Option<u8>,
    shells: Vec<Saved>,
    pub(crate) inputs: Inputs,
    pub(crate) routing: Routing,
    pub(crate) files: Files,
}

impl Model for Overlay {
    ghost use Rattle.std.specs.Prelude.{reverse};
    ghost use Rattle.std.specs.Coded.{codes};
    ghost use Rattle.hs_world.specs.Files.{files_code};
    ghost use Rattle.hs_overlay.specs.Marks.{funcs_over_code, kept_over_code, vars_over_code};
    ghost use Rattle.hs_overlay.specs.Names.{folders_over_code};
    ghost use Rattle.hs_overlay.specs.Overlay.{OverlayData};
    ghost use Rattle.hs_overlay.specs.Paths.{paths_over_code};

    ghost Value = { OverlayData };

    ghost coded = { Prim.hlevel (codes, files_code, vars_over_code, funcs_over_code, kept_over_code, paths_over_code, folders_over_code) };

    ghost view = { λ a. record {
      scope = a.scope;
      status = a.status;
      shells = reverse a.shells.items;
      inputs = a.inputs;
      routing = a.routing;
      files = a.files;
    } };
}

impl Overlay {
    /// No effect yet, over a base of which these ends and routes are known.
    pub fn new(alloc: Global, ends: Option<Routes>, routes: Option<Routes>) -> Overlay
        ensures { result ≡ no_overlay ends routes }
    {
        Overlay {
            alloc,
            scope: Scope::new(alloc),
            status: None,
            shells: Vec::new(alloc),
            inputs: Inputs::new(alloc),
            routing: Routing::new(alloc, ends, routes),
            files: Files::new(alloc),
        }
    }

    /// How many environments, texts of standard input and tables of routes the effects pushed that stand.
    pub fn depth(&self) -> Depth
        ensures shells { result.shells ≡ min (length self.now.shells) (2 ^ 32 - 1) }
        ensures inputs { result.inputs ≡ min (length self.now.inputs.pushed) (2 ^ 32 - 1) }
        ensures routes { result.routes ≡ min (length self.now.routing.pushed) (2 ^ 32 - 1) }
    {
        Depth {
            shells: capped(self.shells.len()),
            inputs: capped(self.inputs.depth()),
            routes: capped(self.routing.depth()),
        }
    }

    /// Whether a pop finds what the effects pushed.
    pub fn has_own(&self, effect: &Effect) -> bool
        ensures { result ≡ has_own effect.now self.now }
    {
        match effect {
            Effect::PopInput => self.inputs.depth() != 0,
            Effect::PopShell => self.shells.len() != 0,
            Effect::PopRoutes => self.routing.depth() != 0,
            _ => true,
        }
    }

    /// Does an effect. Where there is no memory, the tables are of no further use.
    pub fn step(&mut self, effect: &Effect) -> Result<(), AllocError>
        ensures { OnOk result (self.new ≡ over_step effect.now self.old) }
    {
        match effect {
            Effect::SetVar(name, var) => self.set_var(name, var),
            Effect::UnsetVar(name) => self.unset_var(name),
            Effect::SetFunc(name, body) => self.set_func(name, *body),
            Effect::UnsetFunc(name) => self.unset_func(name),
            Effect::SetParams(params) => self.set_params(params),
            Effect::SetStatus(status) => self.set_status(*status),
            Effect::SetCwd(path) => self.set_cwd(path),
            Effect::SetOpts(opts) => self.set_opts(*opts),
            Effect::Put(path, text) => self.put(path, text),
            Effect::Append(path, text) => self.append(path, text),
            Effect::MakeDir(path) => self.make_dir(path),
            Effect::Remove(path) => self.remove(path),
            Effect::Emit(fd, text) => self.emit(*fd, text),
            Effect::PushShell => self.push_shell(),
            Effect::PopShell => self.pop_shell(),
            Effect::PushInput(text) => self.push_input(text),
            Effect::SetInput(text) => self.set_input(text),
            Effect::PopInput => self.pop_input(),
            Effect::PushRoutes(routes) => self.push_routes(routes),
            Effect::PopRoutes => self.pop_routes(),
            Effect::SetRoutes(routes) => self.set_routes(routes),
            Effect::SetKept(descriptor, text) => self.set_kept(*descriptor, text),
            Effect::ExecInput(text) => self.exec_input(text),
            Effect::Replied(reply) => self.replied(reply),
        }
    }

    fn set_var(&mut self, name: &Text, var: &Var) -> Result<(), AllocError>
        ensures { OnOk result (self.new ≡ over_step (effect.SetVar name.now var.now) self.old) }
    {
        self.scope.vars.insert(name.clone()?, Some(var.clone()?))
    }

    fn unset_var(&mut self, name: &Text) -> Result<(), AllocError>
        ensures { OnOk result (self.new ≡ over_step (effect.UnsetVar name.now) self.old) }
    {
        self.scope.vars.insert(name.clone()?, None)
    }

    fn set_func(&mut self, name: &Text, body: u32) -> Result<(), AllocError>
        ensures { OnOk result (self.new ≡ over_step (effect.SetFunc name.now body) self.old) }
    {
        self.scope.funcs.insert(name.clone()?, Some(body))
    }

    fn unset_func(&mut self, name: &Text) -> Result<(), AllocError>
        ensures { OnOk result (self.new ≡ over_step (effect.UnsetFunc name.now) self.old) }
    {
        self.scope.funcs.insert(name.clone()?, None)
    }

    fn set_params(&mut self, params: &TextList) -> Result<(), AllocError>
        ensures { OnOk result (self.new ≡ over_step (effect.SetParams params.now) self.old) }
    {
        self.scope.params = Some(params.clone()?);
        Ok(())
    }

    fn set_status(&mut self, status: u8) -> Result<(), AllocError>
        ensures { OnOk result (self.new ≡ over_step (effect.SetStatus status) self.old) }
    {
        self.status = Some(status);
        Ok(())
    }

    fn set_cwd(&mut self, path: &PathName) -> Result<(), AllocError>
        ensures { OnOk result (self.new ≡ over_step (effect.SetCwd path.now) self.old) }
    {
        self.scope.cwd = Some(path.clone()?);
        Ok(())
    }

    fn set_opts(&mut self, opts: Opts) -> Result<(), AllocError>
        ensures { OnOk result (self.new ≡ over_step (effect.SetOpts opts) self.old) }
    {
        self.scope.opts = Some(opts);
        Ok(())
    }

    fn set_kept(&mut self, descriptor: u8, text: &Option<Text>) -> Result<(), AllocError>
        ensures { OnOk result (self.new ≡ over_step (effect.SetKept descriptor text.now) self.old) }
    {
        self.scope.kept.insert(descriptor, copied(text.as_ref())?)
    }

    fn put(&mut self, path: &PathName, text: &Text) -> Result<(), AllocError>
        ensures { OnOk result (self.new ≡ over_step (effect.Put path.now text.now) self.old) }
    {
        self.files.put(path, Entry::File(text.clone()?))
    }

    fn append(&mut self, path: &PathName, text: &Text) -> Result<(), AllocError>
        ensures { OnOk result (self.new ≡ over_step (effect.Append path.now text.now) self.old) }
    {
        self.files.extend(path, text)
    }

    fn make_dir(&mut self, path: &PathName) -> Result<(), AllocError>
        ensures { OnOk result (self.new ≡ over_step (effect.MakeDir path.now) self.old) }
    {
        self.files.put(path, Entry::Dir)
    }

    fn remove(&mut self, path: &PathName) -> Result<(), AllocError>
        ensures { OnOk result (self.new ≡ over_step (effect.Remove path.now) self.old) }
    {
        self.files.remove(path)
    }

    fn emit(&mut self, fd: Fd, text: &Text) -> Result<(), AllocError>
        ensures { OnOk result (self.new ≡ over_step (effect.Emit fd text.now) self.old) }
    {
        let descriptor = number_of(fd);
        let file = copied_path(self.routing.file(descriptor))?;
        self.routing.emit(descriptor, text)?;
        match file {
            Some(path) => self.files.extend(&path, text),
            None => Ok(()),
        }
    }

    /// What a subshell environment that begins here gives back.
    fn saved(&self) -> Result<Saved, AllocError>
        ensures { IfOk result (λ saved. saved ≡ saved_of self.now) }
    {
        Ok(Saved {
            scope: self.scope.clone()?,
            routes: copied_routes(self.routing.routes())?,
            tables: self.routing.depth(),
            lower: false,
            inputs: self.inputs.depth(),
            input: None,
        })
    }

    fn push_shell(&mut self) -> Result<(), AllocError>
        ensures { OnOk result (self.new ≡ over_step effect.PushShell self.old) }
    {
        let saved = self.saved()?;
        self.shells.push(saved)?;
        Ok(())
    }

    fn pop_shell(&mut self) -> Result<(), AllocError>
        ensures { OnOk result (self.new ≡ over_step effect.PopShell self.old) }
    {
        if let Some(saved) = self.shells.pop() {
            self.restore(saved);
        }
        Ok(())
    }

    fn restore(&mut self, saved: Saved)
        ensures { self.new ≡ record self.old {
          scope = saved.scope;
          inputs = inputs_returned saved.inputs saved.input self.old.inputs;
          routing = routes_returned (goes_back saved (length self.old.routing.pushed)) saved.routes self.old.routing;
        } }
    {
        let back = saved.goes_back(self.routing.depth());
        let Saved {
            scope,
            routes,
            tables: _,
            lower: _,
            inputs,
            input,
        } = saved;
        self.routing.give_back(back, routes);
        self.inputs.give_back(inputs, input);
        self.scope = scope;
    }

    fn push_input(&mut self, text: &Text) -> Result<(), AllocError>
        ensures { OnOk result (self.new ≡ over_step (effect.PushInput text.now) self.old) }
    {
        self.inputs.push(text.clone()?)
    }

    fn set_input(&mut self, text: &Text) -> Result<(), AllocError>
        ensures { OnOk result (self.new ≡ over_step (effect.SetInput text.now) self.old) }
    {
        self.inputs.set(text.clone()?);
        Ok(())
    }

    fn pop_input(&mut self) -> Result<(), AllocError>
        ensures { OnOk result (self.new ≡ over_step effect.PopInput self.old) }
    {
        self.inputs.pop();
        Ok(())
    }

    fn exec_input(&mut self, text: &Text) -> Result<(), AllocError>
        ensures { OnOk result (self.new ≡ over_step (effect.ExecInput text.now) self.old) }
    {
        let text = text.clone()?;
        let old = copied(self.inputs.top())?;
        note(self.shells.as_mut_slice(), self.inputs.depth(), old);
        self.inputs.set(text);
        Ok(())
    }

    fn push_routes(&mut self, routes: &Routes) -> Result<(), AllocError>
        ensures { OnOk result (self.new ≡ over_step (effect.PushRoutes routes.now) self.old) }
    {
        self.routing.push(routes)
    }

    fn pop_routes(&mut self) -> Result<(), AllocError>
        ensures { OnOk result (self.new ≡ over_step effect.PopRoutes self.old) }
    {
        self.routing.pop();
        lower(self.shells.as_mut_slice(), self.routing.depth());
        Ok(())
    }

    fn set_routes(&mut self, routes: &Routes) -> Result<(), AllocError>
        ensures { OnOk result (self.new ≡ over_step (effect.SetRoutes routes.now) self.old) }
    {
        self.routing.set(routes.clone()?);
        Ok(())
    }

    fn replied(&mut self, reply: &Reply) -> Result<(), AllocError>
        ensures { OnOk result (self.new ≡ over_step (effect.Replied reply.now) self.old) }
    {
        self.files = Files::leave(self.alloc, &reply.tree)?;
        self.inputs.set(Text::new(self.alloc));
        Ok(())
    }
}

/// A copy, where there is one.
pub fn copied_routes(routes: Option<&Routes>) -> Result<Option<Routes>, AllocError>
    ensures { IfOk result (λ copy. copy ≡ option_copied routes.entry) }
{
    match routes {
        Some(routes) => Ok(Some(routes.clone()?)),
        None => Ok(None),
    }
}

fn copied_path(path: Option<&PathName>) -> Result<Option<PathName>, AllocError>
    ensures { IfOk result (λ copy. copy ≡ option_copied path.entry) }
{
    match path {
        Some(path) => Ok(Some(path.clone()?)),
        None => Ok(None),
    }
}

/// The number of a descriptor.
pub fn number_of(fd: Fd) -> u8
    ensures { result ≡ fd_number fd }
{
    match fd {
        Fd::One => 1,
        Fd::Two => 2,
    }
}

fn capped(count: usize) -> u32
    ensures { result ≡ min count (2 ^ 32 - 1) }
{
    if count > u32::MAX as usize {
        return u32::MAX;
    }
    count as u32
}
