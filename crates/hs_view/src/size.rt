//! The size of what was read and done. Sums stay at the last number of 128 bits, which is beyond every limit.

ghost use Rattle.std.specs.Prelude.{◌≡◌, ◌+◌, ◌-◌, ◌^◌, min};
ghost use Rattle.hs_view.specs.Size.{capped, effect_size, loc_size, maybe_size, names_size, path_bytes, path_size, read_size, reply_size, route_size, routes_size, text_size, texts_size, value_size, var_size};

use hs_text::{Text, TextList};
use hs_world::{Effect, Loc, PathName, Reply, Route, Value, Var};

fn text_size(text: &Text) -> u128
    ensures { result ≡ capped (text_size text.now) }
{
    16u128.saturating_add(text.len() as u128)
}

fn texts_size(texts: &[Text]) -> u128
    ensures { result ≡ capped (texts_size texts.now) }
{
    let mut size: u128 = 0;
    for text in texts {
        size = size.saturating_add(text_size(text));
    }
    size
}

fn path_bytes(names: &[Text]) -> u128
    ensures { result ≡ capped (path_bytes names.now) }
{
    let mut size: u128 = 0;
    for name in names {
        size = size.saturating_add(name.len() as u128);
    }
    size
}

fn path_size(path: &PathName) -> u128
    ensures { result ≡ capped (path_size path.now) }
{
    16u128.saturating_add(path_bytes(path.names()))
}

fn maybe_size(text: &Option<Text>) -> u128
    ensures { result ≡ capped (maybe_size text.now) }
{
    match text {
        Some(text) => text_size(text),
        None => 0,
    }
}

fn names_size(names: &Option<TextList>) -> u128
    ensures { result ≡ capped (names_size names.now) }
{
    match names {
        Some(names) => texts_size(names.as_slice()),
        None => 0,
    }
}

fn var_size(var: &Option<Var>) -> u128
    ensures { result ≡ capped (var_size var.now) }
{
    match var {
        Some(var) => maybe_size(&var.value),
        None => 0,
    }
}

fn route_size(route: &Route) -> u128
    ensures { result ≡ capped (route_size route.now) }
{
    match route {
        Route::File(path) => path_size(path),
        _ => 0,
    }
}

fn routes_size(routes: &[Route]) -> u128
    ensures { result ≡ capped (routes_size routes.now) }
{
    let mut size: u128 = 0;
    for route in routes {
        size = size.saturating_add(route_size(route));
    }
    size
}

fn loc_size(loc: &Loc) -> u128
    ensures { result ≡ capped (loc_size loc.now) }
{
    match loc {
        Loc::Kind(path) => path_size(path),
        Loc::Bytes(path) => path_size(path),
        Loc::Names(path) => path_size(path),
        Loc::Var(name) => text_size(name),
        Loc::Func(name) => text_size(name),
        _ => 0,
    }
}

fn value_size(value: &Value) -> u128
    ensures { result ≡ capped (value_size value.now) }
{
    match value {
        Value::Bytes(text) => maybe_size(text),
        Value::Names(names) => names_size(names),
        Value::Var(var) => var_size(var),
        Value::Params(zero, params) => {
            text_size(zero).saturating_add(texts_size(params.as_slice()))
        }
        Value::Cwd(path) => path_size(path),
        Value::Input(text) => text_size(text),
        Value::Routes(routes) => routes_size(routes.as_slice()),
        Value::Ends(routes) => routes_size(routes.as_slice()),
        Value::Captured(text) => text_size(text),
        Value::Kept(text) => maybe_size(text),
        _ => 0,
    }
}

/// The size of a pair that was read.
pub fn read_size(loc: &Loc, value: &Value) -> u128
    ensures { result ≡ capped (read_size (loc.now, value.now)) }
{
    64u128
        .saturating_add(loc_size(loc))
        .saturating_add(value_size(value))
}

fn reply_size(reply: &Reply) -> u128
    ensures { result ≡ capped (reply_size reply.now) }
{
    text_size(&reply.out)
        .saturating_add(text_size(&reply.err))
        .saturating_add(reply.tree.kept_size())
}

/// The size of an effect, without the 64 bytes that each takes.
pub fn effect_size(effect: &Effect) -> u128
    ensures { result ≡ capped (effect_size effect.now) }
{
    match effect {
        Effect::SetVar(name, var) => text_size(name).saturating_add(maybe_size(&var.value)),
        Effect::UnsetVar(name) => text_size(name),
        Effect::SetFunc(name, _) => text_size(name),
        Effect::UnsetFunc(name) => text_size(name),
        Effect::SetParams(params) => texts_size(params.as_slice()),
        Effect::SetCwd(path) => path_size(path),
        Effect::Put(path, text) => file_size(path, text),
        Effect::Append(path, text) => file_size(path, text),
        Effect::MakeDir(path) => path_size(path),
        Effect::Remove(path) => path_size(path),
        Effect::Emit(_, text) => text_size(text),
        Effect::PushInput(text) => text_size(text),
        Effect::SetInput(text) => text_size(text),
        Effect::PushRoutes(routes) => routes_size(routes.as_slice()),
        Effect::SetRoutes(routes) => routes_size(routes.as_slice()),
        Effect::SetKept(_, text) => maybe_size(text),
        Effect::ExecInput(text) => text_size(text),
        Effect::Replied(reply) => reply_size(reply),
        _ => 0,
    }
}

fn file_size(path: &PathName, text: &Text) -> u128
    ensures { result ≡ capped (path_size path.now + text_size text.now) }
{
    path_size(path).saturating_add(text_size(text))
}
