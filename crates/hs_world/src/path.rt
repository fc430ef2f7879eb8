//! Names of entries of the tree, from its root (POSIX.1-2017, XBD 4.13).

ghost use Rattle.std.specs.Prelude.{◌≡◌, ◌↔◌, ◌≤◌, [], ◌∷◌, ◌++◌, IsTrue, IfOk, OnOk, OnErr, None, true, false, length, take, drop, if◌then◌else◌, Some, nat_eq, refl};
ghost use Rattle.std.specs.Cmp.{partial_equiv_from_equiv};
ghost use Rattle.std.specs.BTreeMap.Comparable.{le_lt_trans};
ghost use Rattle.std.specs.Cmp.Lexicographic.{pointwise, lists_equiv, lists_total, lists_ties, nat_list_eq_equiv, nat_list_cmp_total, texts_ties};
ghost use Rattle.hs_world.specs.Names.{name_cmp, path_cmp, paths_po, same_name};
ghost use Rattle.std.specs.Str.{is_utf8};
ghost use Rattle.hs_world.specs.Paths.{after, are_components, are_names, components, go, go_all, has_byte, is_component, is_name, parent, resolve, slash};

use hs_text::{Text, TextList};
use std::alloc::{AllocError, Global};
use std::cmp::Ordering;
use std::collections::btree_map::Comparable;
use std::marker::Model;

/// A path from the root: the names of the folders on the way, and that of the entry. Each name is 1 to 255 bytes of
/// UTF-8 without NUL and `/`, and neither `.` nor `..`.
#[derive(Clone, Drop)]
pub struct PathName {
    names: TextList,
}

impl Model for PathName {
    ghost use Rattle.std.specs.Prelude.{List, ℕ, ◌≡◌, true};
    ghost use Rattle.hs_world.specs.Paths.{after, are_components, are_names, components, go, go_all, has_byte, is_component, is_name, parent, resolve, slash};

    ghost Value = { List (List ℕ) };

    ghost view = { λ a. a.names };

    ghost invariant = { λ a. are_names a.names ≡ true };
}

impl PathName {
    /// The root.
    pub fn root(alloc: Global) -> PathName
        ensures { result ≡ [] }
    {
        PathName {
            names: TextList::new(alloc),
        }
    }

    /// The names from the root.
    pub fn names(&self) -> &[Text]
        ensures names { result.now ≡ self.now }
        ensures are_names { are_names self.now ≡ true }
    {
        self.names.as_slice()
    }

    /// The path that a text names, seen from a folder: `.`, `..` and repeated `/` are folded. None comes exactly where the
    /// text is empty or longer than 4,096 bytes, or a component is not UTF-8, holds a NUL, or is longer than 255 bytes.
    pub fn resolve(
        alloc: Global,
        cwd: &PathName,
        bytes: &[u8],
    ) -> Result<Option<PathName>, AllocError>
        ensures { IfOk result (λ path. path ≡ resolve cwd.now bytes.now) }
    {
        if bytes.is_empty() || bytes.len() > 4096 {
            return Ok(None);
        }
        let start = if bytes[0] == b'/' {
            PathName::root(alloc)
        } else {
            cwd.clone()?
        };
        follow(alloc, start, bytes)
    }

    /// Goes to an entry of this folder.
    fn push(&mut self, name: Text) -> Result<(), AllocError>
        requires { is_name name ≡ true }
        ensures ok { OnOk result (self.new ≡ self.old ++ name ∷ []) }
        ensures err { OnErr result (self.new ≡ self.old) }
    {
        self.names.push(name)?;
        Ok(())
    }

    /// Goes to the folder around this one.
    pub fn pop(&mut self)
        ensures { self.new ≡ parent self.old }
    {
        self.names.pop();
    }

    /// Whether the two are equal.
    pub fn same(&self, other: &PathName) -> bool
        ensures { IsTrue result ↔ (self.now ≡ other.now) }
    {
        self.names.same(&other.names)
    }

    /// The names of the folder that the entry is in.
    pub fn parent(&self) -> &[Text]
        ensures { result.now ≡ parent self.now }
    {
        let names = self.names.as_slice();
        match names.split_last() {
            Some((_, front)) => front,
            None => names,
        }
    }
}

impl PartialEq for PathName {
    ghost eq = { pointwise (pointwise nat_eq) };

    ghost laws = { partial_equiv_from_equiv (lists_equiv nat_list_eq_equiv) };

    fn eq(&self, other: &PathName) -> bool {
        self.names == other.names
    }
}

impl Eq for PathName {
    ghost laws = { lists_equiv nat_list_eq_equiv };
}

impl PartialOrd for PathName {
    ghost partial_cmp = { λ x y. Some (path_cmp x y) };

    ghost laws = { paths_po };

    fn partial_cmp(&self, other: &PathName) -> Option<Ordering> {
        Some(self.cmp(other))
    }
}

impl Ord for PathName {
    ghost cmp = { path_cmp };

    ghost total = { lists_total nat_list_cmp_total };

    ghost matches_partial_cmp = { λ x y. refl };

    ghost matches_eq = { lists_ties name_cmp texts_ties };

    fn cmp(&self, other: &PathName) -> Ordering {
        self.names.cmp(&other.names)
    }
}

/// The names of a path stand for it.
impl Comparable<PathName> for &[Text] {
    ghost compare = { λ q k. path_cmp q.now k };

    ghost respects_cmp = { λ q x y. (lists_total nat_list_cmp_total).congr q.now x y };

    ghost below_greater = { λ q x y. le_lt_trans (lists_total nat_list_cmp_total) q.now x y };

    fn compare(&self, key: &PathName) -> Ordering {
        compare_names(*self, key.names())
    }
}

fn compare_names<'x>(a: &'x [Text], b: &'x [Text]) -> Ordering
    ensures { result ≡ path_cmp a.now b.now }
{
    Ord::cmp(&a, &b)
}

fn has_byte(byte: u8, bytes: &[u8]) -> bool
    ensures { result ≡ has_byte byte bytes.now }
{
    match bytes.split_first() {
        None => false,
        Some((first, rest)) => byte == *first || has_byte(byte, rest),
    }
}

fn is_utf8(bytes: &[u8]) -> bool
    ensures { result ≡ is_utf8 bytes.now }
{
    match str::from_utf8(bytes) {
        Ok(_) => true,
        Err(_) => false,
    }
}

fn is_component(bytes: &[u8]) -> bool
    ensures { result ≡ is_component bytes.now }
{
    if bytes.len() > 255 || has_byte(0, bytes) {
        return false;
    }
    is_utf8(bytes)
}

/// How many bytes stand before the first slash.
fn slash_at(bytes: &[u8]) -> usize
    ensures within { result ≤ length bytes.now }
    ensures parts { components bytes.now ≡ take result bytes.now ∷ after (drop result bytes.now) }
    ensures none { has_byte slash (take result bytes.now) ≡ false }
{
    match bytes.split_first() {
        None => 0,
        Some((first, rest)) => {
            if *first == b'/' {
                return 0;
            }
            slash_at(rest) + 1
        }
    }
}

fn is_text(bytes: &[u8], other: &[u8]) -> bool
    ensures { result ≡ same_name bytes.now other.now }
{
    bytes.cmp(other) == Ordering::Equal
}

/// Goes on by one component.
fn go(alloc: Global, at: &mut PathName, component: &[u8]) -> Result<(), AllocError>
    requires component { is_component component.now ≡ true }
    requires slash { has_byte slash component.now ≡ false }
    ensures ok { OnOk result (at.new ≡ go at.old component.now) }
{
    if is_text(component, b"") || is_text(component, b".") {
        return Ok(());
    }
    if is_text(component, b"..") {
        at.pop();
        return Ok(());
    }
    at.push(Text::from_slice(alloc, component)?)
}

/// Goes on by the components of a text, one after another.
fn follow(alloc: Global, start: PathName, bytes: &[u8]) -> Result<Option<PathName>, AllocError>
    ensures { IfOk result (λ path. path ≡ (if are_components (components bytes.now) then Some (go_all start (components bytes.now)) else None)) }
{
    let mut at = start;
    let mut rest = bytes;
    loop {
        let n = slash_at(rest);
        let (component, more) = rest.split_at(n);
        if !is_component(component) {
            return Ok(None);
        }
        go(alloc, &mut at, component)?;
        match more.split_first() {
            None => return Ok(Some(at)),
            Some((_, next)) => rest = next,
        }
    }
}
