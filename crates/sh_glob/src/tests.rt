use crate::paths;
use hs_text::{Field, Fields, Text, TextList};
use hs_view::{Fixed, View};
use hs_world::{Effect, Entry, Limits, Opts, PathName, Tree, World};
use std::alloc::{AllocError, Global};
use std::test::Fail;

const LIMITS: Limits = Limits {
    bytes: 1024,
    turns: 1,
};

/// The entries of a tree, with a `/` at the end of a folder; a field, with `'` around quoted bytes; and the texts that
/// come of it.
const CASES: [(&str, &str, &str); 28] = [
    ("b.c a.c c", "*.c", "a.c b.c"),
    ("a .a", "*", "a"),
    (".b .a a", ".*", ".a .b"),
    (".a", "[.]a", "[.]a"),
    (".a", "?a", "?a"),
    ("a*b axb", "a'*'b", "a*b"),
    ("a*b axb", "a'*'*", "a*b"),
    ("a", "q*'*'", "q**"),
    ("d/ d/x f", "*/x", "d/x"),
    ("d/ f", "*/", "d/"),
    ("d/ f", "f*/", "f*/"),
    ("d/ d/x", "d//*", "d//x"),
    ("d/ d/x", "./d/./*", "./d/./x"),
    ("d/ e/ e/x", "d/../*", "d/../d d/../e"),
    ("d/ f", "*/..", "d/.."),
    ("f", "f/*", "f/*"),
    ("a[/ a[/b]", "a[/b]", "a[/b]"),
    ("a/ a/b", "[a/b]", "[a/b]"),
    ("a/ a/x a.b/ a.b/x", "*/x", "a.b/x a/x"),
    ("a b", "[!a]", "b"),
    ("a", "/*", "/a"),
    ("d/ d/x", "*/*/", "*/*/"),
    ("b1 b2 b", "b?", "b1 b2"),
    (".d/ .d/x", "*/x", "*/x"),
    (".d/ .d/x", ".d/*", ".d/x"),
    ("* x", "\\*", "\\*"),
    ("*x ax", "\\**", "*x"),
    ("d/ d/x", "d/y*", "d/y*"),
];

fn is_put(alloc: Global, tree: &mut Tree, path: &str) -> bool {
    let root = PathName::root(alloc);
    let Ok(Some(at)) = PathName::resolve(alloc, &root, path.as_bytes()) else {
        return false;
    };
    let entry = if path.ends_with('/') {
        Entry::Dir
    } else {
        Entry::File(Text::new(alloc))
    };
    tree.insert(at, entry).is_ok()
}

fn tree_of(alloc: Global, paths: &str) -> Option<Tree> {
    let mut tree = Tree::new(alloc);
    for path in paths.split(' ') {
        if !is_put(alloc, &mut tree, path) {
            return None;
        }
    }
    Some(tree)
}

fn view_of(alloc: Global, tree: Tree) -> Option<View<Fixed>> {
    let params = TextList::new(alloc);
    match World::new(
        alloc,
        tree,
        Vec::new(alloc),
        Text::new(alloc),
        params,
        Text::new(alloc),
        LIMITS,
    ) {
        Ok(world) => Some(View::new(alloc, Fixed::new(world), 65536)),
        Err(_) => None,
    }
}

fn field_of(alloc: Global, text: &str) -> Result<Field, AllocError> {
    let mut field = Field::new(alloc);
    let mut quoted = false;
    for byte in text.as_bytes() {
        if *byte == b'\'' {
            quoted = !quoted;
        } else {
            field.push(*byte, quoted)?;
        }
    }
    Ok(field)
}

fn fields_of(alloc: Global, text: &str) -> Result<Fields, AllocError> {
    let mut fields = Fields::new(alloc);
    for word in text.split(' ') {
        let field = field_of(alloc, word)?;
        fields.push(field)?;
    }
    Ok(fields)
}

fn are(list: &[Text], wanted: &str) -> bool {
    let mut words = wanted.split(' ');
    for text in list {
        match words.next() {
            Some(word) if text.as_slice() == word.as_bytes() => {}
            _ => return false,
        }
    }
    words.next().is_none()
}

/// How many locations a view read.
fn ended(view: View<Fixed>) -> usize {
    let (base, trace) = view.into_trace();
    let count = trace.reads().as_slice().len();
    drop(base);
    drop(trace);
    count
}

/// How many locations were read, where the fields become these texts.
fn expanded(alloc: Global, view: View<Fixed>, fields: &Fields, wanted: &str) -> Option<usize> {
    let mut view = view;
    let answer = paths(alloc, fields, &mut view);
    let count = ended(view);
    match answer {
        Ok(list) if are(list.as_slice(), wanted) => Some(count),
        _ => None,
    }
}

fn is_expanded(alloc: Global, view: View<Fixed>, fields: &Fields, wanted: &str) -> bool {
    expanded(alloc, view, fields, wanted).is_some()
}

fn gives(alloc: Global, entries: &str, text: &str, wanted: &str) -> Result<bool, AllocError> {
    let fields = fields_of(alloc, text)?;
    let Some(tree) = tree_of(alloc, entries) else {
        return Ok(false);
    };
    match view_of(alloc, tree) {
        Some(view) => Ok(is_expanded(alloc, view, &fields, wanted)),
        None => Ok(false),
    }
}

#[test]
fn fields_become_paths(rt: HostRuntime) -> Result<(), Fail> {
    for (entries, text, wanted) in &CASES {
        assert!(rt; gives(rt.alloc(), entries, text, wanted)?, "{text:?}");
    }
    Ok(())
}

#[test]
fn fields_become_paths_one_by_one(rt: HostRuntime) -> Result<(), Fail> {
    assert!(rt; gives(rt.alloc(), "b a", "* 'a'b ?", "a b ab a b")?);
    Ok(())
}

/// A view of a folder `d` beside `a`, with `x` in it.
fn small_view(alloc: Global) -> Option<View<Fixed>> {
    let tree = tree_of(alloc, "a d/ d/x")?;
    view_of(alloc, tree)
}

fn enter(alloc: Global, view: &mut View<Fixed>) -> bool {
    let root = PathName::root(alloc);
    match PathName::resolve(alloc, &root, b"d") {
        Ok(Some(at)) => view.put(Effect::SetCwd(at)).is_ok(),
        _ => false,
    }
}

fn set_noglob(view: &mut View<Fixed>) -> bool {
    view.put(Effect::SetOpts(Opts::NOGLOB)).is_ok()
}

/// In the folder `d`.
fn gives_inside(alloc: Global, text: &str, wanted: &str) -> Option<bool> {
    let fields = fields_of(alloc, text).ok()?;
    let mut view = small_view(alloc)?;
    let entered = enter(alloc, &mut view);
    let expanded = is_expanded(alloc, view, &fields, wanted);
    Some(entered && expanded)
}

/// Under option f.
fn gives_unchanged(alloc: Global, text: &str, wanted: &str) -> Option<bool> {
    let fields = fields_of(alloc, text).ok()?;
    let mut view = small_view(alloc)?;
    let set = set_noglob(&mut view);
    let expanded = is_expanded(alloc, view, &fields, wanted);
    Some(set && expanded)
}

#[test]
fn paths_begin_at_the_current_folder(rt: HostRuntime) -> Result<(), Fail> {
    assert_eq!(rt;
        gives_inside(rt.alloc(), "* ../* /a*", "x ../a ../d /a"),
        Some(true)
    );
    Ok(())
}

#[test]
fn option_f_leaves_fields(rt: HostRuntime) -> Result<(), Fail> {
    assert_eq!(rt; gives_unchanged(rt.alloc(), "* 'a'?", "* a?"), Some(true));
    Ok(())
}

/// How many locations are read, where a field becomes these texts.
fn reads(alloc: Global, text: &str, wanted: &str) -> Option<usize> {
    let fields = fields_of(alloc, text).ok()?;
    let tree = tree_of(alloc, "a/ a/b d/ d/x d/y/ d/y/z")?;
    let view = view_of(alloc, tree)?;
    expanded(alloc, view, &fields, wanted)
}

/// The options and the current folder; then what stands on the way, and no more.
#[test]
fn only_what_is_on_the_way_is_read(rt: HostRuntime) -> Result<(), Fail> {
    assert_eq!(rt; reads(rt.alloc(), "d/*", "d/x d/y"), Some(4));
    assert_eq!(rt; reads(rt.alloc(), "*/x", "d/x"), Some(5));
    assert_eq!(rt; reads(rt.alloc(), "/d/[x]", "/d/x"), Some(3));
    assert_eq!(rt; reads(rt.alloc(), "d/x", "d/x"), Some(0));
    Ok(())
}
