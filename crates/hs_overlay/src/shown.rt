//! What the tables show at a location: by themselves, or over what the base has there. A look-up takes O(log m)
//! comparisons beside what it copies; the names of a folder take O(n log n).

ghost use Rattle.std.specs.Prelude.{◌≡◌, ◌++◌, option_copied, option_map, unwrap_or, IfOk};
ghost use Rattle.std.specs.FinMap as map;
ghost use Rattle.hs_world.specs.Files.{bytes_of, kind_of, names_in};
ghost use Rattle.hs_overlay.specs.Names.{changes_at, names_after};
ghost use Rattle.hs_overlay.specs.Shown.{bytes_over, lacks, names_over, over_value, own_entry, own_names, own_value};

use crate::files::Files;
use crate::folders::names_after;
use crate::overlay::{Overlay, copied_routes};
use crate::paths::PathOver;
use hs_text::{Text, TextList, copied};
use hs_world::{Entry, Kind, Loc, Tree, Value, Var};
use std::alloc::{AllocError, Global};

impl Overlay {
    /// The value that the effects give by themselves.
    pub fn own(&self, loc: &Loc) -> Result<Option<Value>, AllocError>
        ensures { IfOk result (λ value. value ≡ own_value self.now loc.now) }
    {
        match loc {
            Loc::Kind(path) => Ok(self.files.own_kind(path.names()).map(Value::Kind)),
            Loc::Bytes(path) => Ok(self.files.own_bytes(path.names())?.map(Value::Bytes)),
            Loc::Names(path) => {
                Ok(
                    self.files
                        .own_names(self.alloc, path.names())?
                        .map(Value::Names),
                )
            }
            Loc::Var(name) => Ok(copied_var(self.scope.vars.get(name))?.map(Value::Var)),
            Loc::Func(name) => Ok(self.scope.funcs.get(name).copied().map(Value::Func)),
            Loc::Params => Ok(None),
            Loc::Status => Ok(self.status.map(Value::Status)),
            Loc::Cwd => Ok(self.scope.cwd.clone()?.map(Value::Cwd)),
            Loc::Opts => Ok(self.scope.opts.map(Value::Opts)),
            Loc::Input => Ok(copied(self.inputs.top())?.map(Value::Input)),
            Loc::Routes => Ok(copied_routes(self.routing.routes())?.map(Value::Routes)),
            Loc::Ends => Ok(self.routing.ends()?.map(Value::Ends)),
            Loc::Captured => Ok(copied(self.routing.captured())?.map(Value::Captured)),
            Loc::Kept(descriptor) => {
                Ok(copied_kept(self.scope.kept.get(*descriptor))?.map(Value::Kept))
            }
        }
    }

    /// The value over that of the base at the same location.
    pub fn over(&self, loc: &Loc, value: Value) -> Result<Value, AllocError>
        ensures { IfOk result (λ shown. shown ≡ over_value self.now loc.now value) }
    {
        match (loc, value) {
            (Loc::Bytes(path), Value::Bytes(bytes)) => {
                Ok(Value::Bytes(self.files.bytes_over(path.names(), bytes)?))
            }
            (Loc::Names(path), Value::Names(names)) => {
                Ok(Value::Names(self.files.names_over(self.alloc, path.names(), names)?))
            }
            (Loc::Params, Value::Params(zero, params)) => {
                Ok(Value::Params(zero, own_or(&self.scope.params, params)?))
            }
            (Loc::Captured, Value::Captured(text)) => {
                Ok(Value::Captured(joined(text, self.routing.given())?))
            }
            (_, value) => Ok(value),
        }
    }

    /// Whether the value hangs on where the base's descriptors lead, and that is not known.
    pub fn lacks(&self, loc: &Loc) -> Result<bool, AllocError>
        ensures { IfOk result (λ lacking. lacking ≡ lacks self.now loc.now) }
    {
        match loc {
            Loc::Bytes(_) => Ok(self.routing.is_loose()),
            Loc::Captured => Ok(self.routing.is_loose() && self.routing.captured().is_none()),
            Loc::Ends => Ok(self.routing.ends()?.is_none()),
            _ => Ok(false),
        }
    }
}

impl Files {
    /// The kind of what a path has, where that hangs on no read.
    fn own_kind(&self, path: &[Text]) -> Option<Kind>
        ensures { result ≡ option_map kind_of (own_entry self.now path.now) }
    {
        match (self.paths.get(path), &self.left) {
            (Some(PathOver::Whole(entry)), _) => Some(kind_of(entry)),
            (_, Some(tree)) => Some(tree.kind(path)),
            (_, None) => None,
        }
    }

    /// The bytes of a file, where these hang on no read.
    fn own_bytes(&self, path: &[Text]) -> Result<Option<Option<Text>>, AllocError>
        ensures { IfOk result (λ bytes. bytes ≡ option_map bytes_of (own_entry self.now path.now)) }
    {
        match (self.paths.get(path), &self.left) {
            (Some(PathOver::Whole(entry)), _) => Ok(Some(copied(file_of(entry))?)),
            (Some(PathOver::Longer(more)), Some(tree)) => {
                Ok(Some(with_more(copied(tree.file(path))?, more)?))
            }
            (None, Some(tree)) => Ok(Some(copied(tree.file(path))?)),
            (_, None) => Ok(None),
        }
    }

    /// The names of a folder, where these hang on no read.
    fn own_names(
        &self,
        alloc: Global,
        path: &[Text],
    ) -> Result<Option<Option<TextList>>, AllocError>
        ensures { IfOk result (λ names. names ≡ own_names self.now path.now) }
    {
        match (self.own_kind(path), &self.left) {
            (None, _) => Ok(None),
            (Some(Kind::Dir), None) => Ok(None),
            (Some(Kind::Dir), Some(tree)) => Ok(Some(Some(self.left_names(alloc, tree, path)?))),
            (Some(_), _) => Ok(Some(None)),
        }
    }

    /// The names of a folder of the tree that a program left.
    fn left_names(&self, alloc: Global, tree: &Tree, path: &[Text]) -> Result<TextList, AllocError>
        ensures { IfOk result (λ names. names ≡ names_after (changes_at self.now.folders path.now) (names_in path.now (map.keys tree.now))) }
    {
        let names = tree.names(path)?;
        names_after(alloc, self.folders.get(path), names.as_slice())
    }

    /// The bytes of a file over those of the base.
    fn bytes_over(&self, path: &[Text], bytes: Option<Text>) -> Result<Option<Text>, AllocError>
        ensures { IfOk result (λ over. over ≡ bytes_over (map.get self.now.paths path.now) bytes) }
    {
        match self.paths.get(path) {
            Some(PathOver::Whole(entry)) => copied(file_of(entry)),
            Some(PathOver::Longer(more)) => with_more(bytes, more),
            None => Ok(bytes),
        }
    }

    /// The names of a folder over those of the base, which has none where it has no folder.
    fn names_over(
        &self,
        alloc: Global,
        path: &[Text],
        names: Option<TextList>,
    ) -> Result<Option<TextList>, AllocError>
        ensures { IfOk result (λ over. over ≡ names_over (map.get self.now.paths path.now) (changes_at self.now.folders path.now) names) }
    {
        let changes = self.folders.get(path);
        match (self.paths.get(path), names) {
            (Some(PathOver::Whole(Some(Entry::Dir))), None) => {
                Ok(Some(names_after(alloc, changes, &[])?))
            }
            (Some(PathOver::Whole(Some(Entry::Dir))), Some(names)) => {
                Ok(Some(names_after(alloc, changes, names.as_slice())?))
            }
            (Some(PathOver::Whole(_)), _) => Ok(None),
            (_, None) => Ok(None),
            (_, Some(names)) => Ok(Some(names_after(alloc, changes, names.as_slice())?)),
        }
    }
}

fn kind_of(entry: &Option<Entry>) -> Kind
    ensures { result ≡ kind_of entry.now }
{
    match entry {
        Some(Entry::File(_)) => Kind::File,
        Some(Entry::Dir) => Kind::Dir,
        Some(Entry::Other) => Kind::Other,
        None => Kind::Absent,
    }
}

/// The bytes of an entry, where it is a file.
pub fn file_of<'a>(entry: &'a Option<Entry>) -> Option<&'a Text>
    ensures { option_copied result ≡ bytes_of entry.entry.now }
{
    match entry {
        Some(Entry::File(text)) => Some(text),
        _ => None,
    }
}

/// A text with another behind it, where there is one.
fn with_more(text: Option<Text>, more: &Text) -> Result<Option<Text>, AllocError>
    ensures { IfOk result (λ longer. longer ≡ option_map (λ t. t ++ more.now) text) }
{
    match text {
        Some(text) => Ok(Some(joined(text, more)?)),
        None => Ok(None),
    }
}

fn joined(text: Text, more: &Text) -> Result<Text, AllocError>
    ensures { IfOk result (λ whole. whole ≡ text ++ more.now) }
{
    let mut whole = text;
    whole.extend(more.as_slice())?;
    Ok(whole)
}

fn copied_var(var: Option<&Option<Var>>) -> Result<Option<Option<Var>>, AllocError>
    ensures { IfOk result (λ copy. copy ≡ option_copied var.entry) }
{
    match var {
        Some(var) => Ok(Some(var.clone()?)),
        None => Ok(None),
    }
}

fn copied_kept(text: Option<&Option<Text>>) -> Result<Option<Option<Text>>, AllocError>
    ensures { IfOk result (λ copy. copy ≡ option_copied text.entry) }
{
    match text {
        Some(text) => Ok(Some(text.clone()?)),
        None => Ok(None),
    }
}

/// The parameters that the effects have set, or these.
fn own_or(own: &Option<TextList>, params: TextList) -> Result<TextList, AllocError>
    ensures { IfOk result (λ chosen. chosen ≡ unwrap_or own.now params) }
{
    match own {
        Some(own) => own.clone(),
        None => Ok(params),
    }
}
