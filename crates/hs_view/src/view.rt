//! Views that record what they read of their base. A read takes O(log n) comparisons beside what it copies.

ghost use Rattle.std.specs.Prelude.{◌≡◌, ◌≢◌, ◌≤◌, ◌<◌, ◌↔◌, ◌^◌, ◌∷◌, ◌++◌, [], ℕ, true, false, if◌then◌else◌, IfOk, OnOk, OnErr, IfSome, Ok, Err};
ghost use Rattle.hs_view.specs.Causes.{Rose};
ghost use Rattle.hs_view.specs.Seen.{Gained, Still, is_of};
ghost use Rattle.hs_view.specs.Fetches.{Fetches};
ghost use Rattle.hs_view.specs.Known.{ends_in, is_of_tables, routes_in, tables_of, IsNine, IsSettled, IsTold, Tabled, Untold};
ghost use Rattle.hs_view.specs.Size.{trace_size};
ghost use Rattle.hs_view.specs.View.{IsTree, Keeps, Showed, Stands, quiet};
ghost use Rattle.hs_world.specs.Reads.{Fresh, IsNew, IsRead, Passes};
ghost use Rattle.hs_overlay.specs.Shown.{lacks, over_value};
ghost use Rattle.hs_world.specs.World.{AllValid, At, WorldData};

mod put;

use crate::base::Base;
use crate::halt::{Halt, SpentKind};
use crate::own::OwnEffects;
use crate::size::read_size;
use crate::tabled::{is_of_tables, overlay_of};
use crate::trace::Trace;
use hs_overlay::Overlay;
use hs_text::TextList;
use hs_world::{Loc, Reads, Reply, Value};
use std::alloc::{AllocError, Global};
use std::marker::Model;

/// A state as a command sees it: its base's, with the command's own effects.
pub struct View<B: Base> {
    alloc: Global,
    base: B,
    reads: Reads,
    effects: OwnEffects,
    /// What the effects make of the base's state, while it is kept. A call that needs it makes it by one pass over them.
    overlay: Option<Overlay>,
    trace: u64,
    size: u128,
}

impl<B: Base> Model for View<B> {
    ghost use Rattle.hs_view.specs.View.{Viewed};
    ghost use Rattle.hs_view.specs.Sound.{IsSound};
    ghost use Rattle.hs_world.specs.Files.{files_code};
    ghost use Rattle.std.specs.Coded.{codes};

    ghost Value = { Viewed B };

    ghost coded = { Prim.hlevel (codes, files_code) };

    ghost view = { λ a. record { base = a.base; reads = a.reads; effects = a.effects; trace = a.trace } };

    ghost invariant = { λ a. IsSound B.seen (record { base = a.base; reads = a.reads; effects = a.effects; trace = a.trace }) a.size a.overlay };
}

impl<B: Base> View<B> {
    /// A view that has read nothing and done nothing. It takes no memory. Over a base that does not write, reads and effects
    /// of more than `trace` bytes are one too many.
    pub fn new(alloc: Global, base: B, trace: u64) -> View<B>
        ensures base { result.base ≡ base }
        ensures reads { result.reads ≡ [] }
        ensures effects { result.effects ≡ [] }
        ensures trace { result.trace ≡ trace }
    {
        View {
            alloc,
            base,
            reads: Reads::new(alloc),
            effects: OwnEffects::new(alloc),
            overlay: None,
            trace,
            size: 0,
        }
    }

    /// The value at a location after the view's own effects. What it had to ask of a base that does not write is in the reads.
    /// Trace comes where that passes the limit: then the pair stands last in the reads, and the view is only taken apart.
    pub fn get(&mut self, loc: &Loc) -> Result<Value, Halt>
        ensures answer { IfOk result (λ value. (u : WorldData) → Showed B.seen self.old self.new u → At u loc.now ≡ value) }
        ensures shape { IfOk result (λ value. is_of loc.now value ≡ true) }
        ensures effects { self.new.effects ≡ self.old.effects }
        ensures world { Still B.seen self.old.base self.new.base }
        ensures keeps { Keeps B.seen self.old self.new result }
        ensures fault { result ≡ Err Halt.Fault → Rose (B.seen.tells self.old.base).faults (B.seen.tells self.new.base).faults }
        ensures trace { (B.seen.tells self.old.base).writes ≡ false → trace_size self.old.reads self.old.effects ≤ self.old.trace → (result ≡ Err Halt.Trace ↔ self.new.trace < trace_size self.new.reads self.new.effects) }
        ensures through { (B.seen.tells self.old.base).writes ≡ true → result ≢ Err Halt.Trace }
        ensures spent { (k : SpentKind) → result ≢ Err (Halt.Spent k) }
        ensures outside { result ≢ Err Halt.Outside }
    {
        if self.base.writes() {
            return self.get_now(loc);
        }
        self.get_over(loc)
    }

    /// Runs an outside program in the base's state. It adds no effect: what came of it is put by the caller.
    pub fn ask(&mut self, argv: &TextList) -> Result<Reply, Halt>
        ensures gained { Gained (B.seen.tells self.old.base) (B.seen.tells self.new.base) argv.now result }
        ensures reads { self.new.reads ≡ self.old.reads }
        ensures effects { self.new.effects ≡ self.old.effects }
        ensures keeps { Keeps (quiet B.seen) self.old self.new result }
        ensures fault { result ≡ Err Halt.Fault → Rose (B.seen.tells self.old.base).faults (B.seen.tells self.new.base).faults }
        ensures outside { (result ≡ Err Halt.Outside) ↔ ((B.seen.tells self.old.base).runs ≡ false) }
        ensures turns { result ≢ Err (Halt.Spent SpentKind.Turns) }
        ensures bytes { result ≢ Err (Halt.Spent SpentKind.Bytes) }
        ensures frames { result ≢ Err (Halt.Spent SpentKind.Frames) }
        ensures trace { result ≢ Err Halt.Trace }
    {
        self.base.ask(argv)
    }

    /// Takes the view apart. No location stands twice in the reads. Over a base that does not write the effects are valid, one
    /// after another, in every state that passes the reads. It takes no memory.
    pub fn into_trace(self) -> (B, Trace)
        ensures base { result.0 ≡ self.base }
        ensures reads { result.1.reads ≡ self.reads }
        ensures effects { result.1.effects ≡ self.effects }
        ensures written { result.1.written ≡ (B.seen.tells self.base).writes }
        ensures fresh { Fresh self.reads }
        ensures valid { (B.seen.tells self.base).writes ≡ false → (w : WorldData) → IsTree w.tree → Passes self.reads w → AllValid self.effects w }
    {
        let written = self.base.writes();
        let View {
            alloc,
            base,
            reads,
            effects,
            overlay,
            trace: _,
            size,
        } = self;
        let trace = Trace {
            alloc,
            reads,
            effects,
            overlay,
            size,
            written,
        };
        (base, trace)
    }

    /// The value at a location of the state that a base that writes tells.
    fn get_now(&mut self, loc: &Loc) -> Result<Value, Halt>
        requires writes { (B.seen.tells self.old.base).writes ≡ true }
        ensures answer { IfOk result (λ value. (u : WorldData) → Showed B.seen self.old self.new u → At u loc.now ≡ value) }
        ensures shape { IfOk result (λ value. is_of loc.now value ≡ true) }
        ensures effects { self.new.effects ≡ self.old.effects }
        ensures world { Still B.seen self.old.base self.new.base }
        ensures keeps { Keeps B.seen self.old self.new result }
        ensures fault { result ≡ Err Halt.Fault → Rose (B.seen.tells self.old.base).faults (B.seen.tells self.new.base).faults }
        ensures trace { result ≢ Err Halt.Trace }
        ensures spent { (k : SpentKind) → result ≢ Err (Halt.Spent k) }
        ensures outside { result ≢ Err Halt.Outside }
    {
        self.fetch_now(loc)
    }

    /// The value at a location of a state that is told by reads.
    fn get_over(&mut self, loc: &Loc) -> Result<Value, Halt>
        requires writes { (B.seen.tells self.old.base).writes ≡ false }
        ensures answer { IfOk result (λ value. (u : WorldData) → Showed B.seen self.old self.new u → At u loc.now ≡ value) }
        ensures shape { IfOk result (λ value. is_of loc.now value ≡ true) }
        ensures fetches { Fetches B.seen self.old self.new result }
    {
        let overlay = self.settled(loc)?;
        match overlay.own(loc)? {
            Some(value) => {
                self.keep(overlay);
                Ok(value)
            }
            None => self.get_under(overlay, loc),
        }
    }

    /// The value over that of the base at the same location.
    fn get_under(&mut self, overlay: Overlay, loc: &Loc) -> Result<Value, Halt>
        requires writes { (B.seen.tells self.old.base).writes ≡ false }
        requires tables { overlay ≡ tables_of B.seen self.old }
        ensures value { IfOk result (λ value. (b : WorldData) → Stands (B.seen.tells self.old.base) self.new.reads b → over_value overlay loc.now (At b loc.now) ≡ value) }
        ensures shape { IfOk result (λ value. is_of loc.now value ≡ true) }
        ensures fetches { Fetches B.seen self.old self.new result }
    {
        let base = self.fetch_once(loc)?;
        let value = overlay.over(loc, base)?;
        self.keep_unless(overlay, is_of_tables(loc));
        Ok(value)
    }

    /// Keeps the tables of the effects.
    fn keep(&mut self, overlay: Overlay)
        requires { overlay ≡ tables_of B.seen self.old }
        ensures { self.new ≡ self.old }
    {
        self.overlay = Some(overlay);
    }

    /// Keeps them, unless more is known now.
    fn keep_unless(&mut self, overlay: Overlay, told: bool)
        requires { told ≡ false → overlay ≡ tables_of B.seen self.old }
        ensures { self.new ≡ self.old }
    {
        if !told {
            self.keep(overlay);
        }
    }

    /// The tables of the effects, with what was read of the base's routes. They are kept no more.
    fn tables(&mut self) -> Result<Overlay, Halt>
        requires writes { (B.seen.tells self.old.base).writes ≡ false }
        ensures tables { IfOk result (λ overlay. Tabled B.seen self.old overlay) }
        ensures same { self.new ≡ self.old }
        ensures halt { (h : Halt) → result ≡ Err h → h ≡ Halt.NoMemory }
    {
        match self.overlay.take() {
            Some(overlay) => Ok(overlay),
            None => self.build(),
        }
    }

    fn build(&self) -> Result<Overlay, Halt>
        requires writes { (B.seen.tells self.now.base).writes ≡ false }
        ensures tables { IfOk result (λ overlay. Tabled B.seen self.now overlay) }
        ensures halt { (h : Halt) → result ≡ Err h → h ≡ Halt.NoMemory }
    {
        match overlay_of(self.alloc, &self.reads, self.effects.as_slice()) {
            Ok(overlay) => Ok(overlay),
            Err(_) => Err(Halt::NoMemory),
        }
    }

    /// The tables of the effects, with what is known of the base's routes; these are read where the location hangs on them.
    fn settled(&mut self, loc: &Loc) -> Result<Overlay, Halt>
        requires writes { (B.seen.tells self.old.base).writes ≡ false }
        ensures tables { IfOk result (λ overlay. Tabled B.seen self.new overlay) }
        ensures settled { IfOk result (λ overlay. IsSettled loc.now overlay self.new.reads) }
        ensures fetches { Fetches B.seen self.old self.new result }
    {
        match self.sure(loc)? {
            Some(overlay) => Ok(overlay),
            None => {
                self.learn_ends()?;
                self.settled_further(loc)
            }
        }
    }

    fn settled_further(&mut self, loc: &Loc) -> Result<Overlay, Halt>
        requires writes { (B.seen.tells self.old.base).writes ≡ false }
        requires ends { IsTold (ends_in self.old.reads) }
        ensures tables { IfOk result (λ overlay. Tabled B.seen self.new overlay) }
        ensures settled { IfOk result (λ overlay. IsSettled loc.now overlay self.new.reads) }
        ensures fetches { Fetches B.seen self.old self.new result }
    {
        match self.sure(loc)? {
            Some(overlay) => Ok(overlay),
            None => {
                self.learn_routes()?;
                self.tables()
            }
        }
    }

    /// The tables, unless the value at the location hangs on more than is known.
    fn sure(&mut self, loc: &Loc) -> Result<Option<Overlay>, Halt>
        requires writes { (B.seen.tells self.old.base).writes ≡ false }
        ensures tables { IfOk result (λ sure. IfSome sure (λ overlay. Tabled B.seen self.new overlay)) }
        ensures settled { IfOk result (λ sure. IfSome sure (λ overlay. lacks overlay loc.now ≡ false)) }
        ensures same { self.new ≡ self.old }
        ensures halt { (h : Halt) → result ≡ Err h → h ≡ Halt.NoMemory }
    {
        let overlay = self.tables()?;
        if overlay.lacks(loc)? {
            drop(overlay);
            return Ok(None);
        }
        Ok(Some(overlay))
    }

    /// Reads where the base's descriptors lead.
    fn learn_ends(&mut self) -> Result<(), Halt>
        requires writes { (B.seen.tells self.old.base).writes ≡ false }
        ensures known { OnOk result (IsTold (ends_in self.new.reads)) }
        ensures fetches { Fetches B.seen self.old self.new result }
    {
        let _ends = self.fetch_once(&Loc::Ends)?;
        Ok(())
    }

    /// Reads the routes of the base's innermost table.
    fn learn_routes(&mut self) -> Result<(), Halt>
        requires writes { (B.seen.tells self.old.base).writes ≡ false }
        ensures known { OnOk result (IsNine (routes_in self.new.reads)) }
        ensures ends { OnOk result (ends_in self.new.reads ≡ ends_in self.old.reads) }
        ensures fetches { Fetches B.seen self.old self.new result }
    {
        match self.fetch_once(&Loc::Routes)? {
            Value::Routes(routes) => {
                let _nine = routes.len();
                Ok(())
            }
            _ => unreachable!(),
        }
    }

    fn fetch_now(&mut self, loc: &Loc) -> Result<Value, Halt>
        requires writes { (B.seen.tells self.old.base).writes ≡ true }
        ensures answer { IfOk result (λ value. (b : WorldData) → Stands (B.seen.tells self.old.base) self.new.reads b → At b loc.now ≡ value) }
        ensures shape { IfOk result (λ value. is_of loc.now value ≡ true) }
        ensures effects { self.new.effects ≡ self.old.effects }
        ensures world { Still B.seen self.old.base self.new.base }
        ensures keeps { Keeps B.seen self.old self.new result }
        ensures fault { result ≡ Err Halt.Fault → Rose (B.seen.tells self.old.base).faults (B.seen.tells self.new.base).faults }
        ensures trace { result ≢ Err Halt.Trace }
        ensures spent { (k : SpentKind) → result ≢ Err (Halt.Spent k) }
        ensures outside { result ≢ Err Halt.Outside }
    {
        let value = self.base.get(loc)?;
        Ok(value)
    }

    /// What the base has at a location, which is in the reads from then on.
    fn fetch_once(&mut self, loc: &Loc) -> Result<Value, Halt>
        requires writes { (B.seen.tells self.old.base).writes ≡ false }
        ensures read { IfOk result (λ value. IsRead self.new.reads loc.now value) }
        ensures fresh { Fresh self.new.reads }
        ensures known { OnOk result (Untold loc.now self.old.reads self.new.reads) }
        ensures answer { IfOk result (λ value. (b : WorldData) → Stands (B.seen.tells self.old.base) self.new.reads b → At b loc.now ≡ value) }
        ensures shape { IfOk result (λ value. is_of loc.now value ≡ true) }
        ensures effects { self.new.effects ≡ self.old.effects }
        ensures keeps { Keeps B.seen self.old self.new result }
        ensures fault { result ≡ Err Halt.Fault → Rose (B.seen.tells self.old.base).faults (B.seen.tells self.new.base).faults }
        ensures trace { trace_size self.old.reads self.old.effects ≤ self.old.trace → (result ≡ Err Halt.Trace ↔ self.new.trace < trace_size self.new.reads self.new.effects) }
        ensures spent { (k : SpentKind) → result ≢ Err (Halt.Spent k) }
        ensures outside { result ≢ Err Halt.Outside }
    {
        if let Some(value) = self.reads.find(loc) {
            return Ok(value.clone()?);
        }
        let value = read_base(&mut self.base, &mut self.reads, loc)?;
        drop(self.overlay.take());
        self.size = self.size.saturating_add(read_size(loc, &value));
        unless_over(value, self.size > u128::from(self.trace))
    }
}

/// Reads a location of the base for the first time, and records it.
fn read_base<B: Base>(base: &mut B, reads: &mut Reads, loc: &Loc) -> Result<Value, Halt>
    requires new { IsNew loc.now reads.old }
    ensures read { IfOk result (λ value. reads.new ≡ reads.old ++ (loc.now, value) ∷ []) }
    ensures unread { OnErr result (reads.new ≡ reads.old) }
    ensures answer { IfOk result (λ value. IfSome (B.seen.tells base.old).world (λ w. At w loc.now ≡ value)) }
    ensures shape { IfOk result (λ value. is_of loc.now value ≡ true) }
    ensures world { (B.seen.tells base.new).world ≡ (B.seen.tells base.old).world }
    ensures asked { (B.seen.tells base.new).asked ≡ (B.seen.tells base.old).asked }
    ensures writes { (B.seen.tells base.new).writes ≡ (B.seen.tells base.old).writes }
    ensures runs { (B.seen.tells base.new).runs ≡ (B.seen.tells base.old).runs }
    ensures later { (B.seen.tells base.old).faults ≤ (B.seen.tells base.new).faults }
    ensures fault { result ≡ Err Halt.Fault → Rose (B.seen.tells base.old).faults (B.seen.tells base.new).faults }
    ensures spent { (k : SpentKind) → result ≢ Err (Halt.Spent k) }
    ensures trace { result ≢ Err Halt.Trace }
    ensures outside { result ≢ Err Halt.Outside }
{
    let value = base.get(loc)?;
    match recorded(reads, loc, value) {
        Ok(value) => Ok(value),
        Err(_) => Err(Halt::NoMemory),
    }
}

/// Records a read, and gives the value back. Where there is no memory, the reads stay.
fn recorded(reads: &mut Reads, loc: &Loc, value: Value) -> Result<Value, AllocError>
    requires new { IsNew loc.now reads.old }
    ensures ok { OnOk result (reads.new ≡ reads.old ++ (loc.now, value) ∷ []) }
    ensures value { IfOk result (λ same. same ≡ value) }
    ensures err { OnErr result (reads.new ≡ reads.old) }
{
    copy_read(reads, loc, &value)?;
    Ok(value)
}

fn copy_read(reads: &mut Reads, loc: &Loc, value: &Value) -> Result<(), AllocError>
    requires new { IsNew loc.now reads.old }
    ensures ok { OnOk result (reads.new ≡ reads.old ++ (loc.now, value.now) ∷ []) }
    ensures err { OnErr result (reads.new ≡ reads.old) }
{
    let (loc, value) = copied_read(loc, value)?;
    reads.record(loc, value)
}

fn copied_read(loc: &Loc, value: &Value) -> Result<(Loc, Value), AllocError>
    ensures { IfOk result (λ read. read ≡ (loc.now, value.now)) }
{
    let loc = loc.clone()?;
    let value = value.clone()?;
    Ok((loc, value))
}

fn unless_over(value: Value, over: bool) -> Result<Value, Halt>
    ensures { result ≡ (if over then Err Halt.Trace else Ok value) }
{
    if over {
        return Err(Halt::Trace);
    }
    Ok(value)
}
