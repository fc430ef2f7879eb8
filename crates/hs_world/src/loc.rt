//! Locations of the state, and what they hold.

ghost use Rattle.std.specs.Prelude.{◌≡◌, refl};
ghost use Rattle.std.specs.Cmp.{eq_by_cmp_equiv, partial_equiv_from_equiv, partial_order_from_total};
ghost use Rattle.std.specs.Ordering.{as_partial_cmp, eq_by_cmp};
ghost use Rattle.hs_world.specs.Locs.{descriptor_of, loc_cmp, locs_total, part_of, subject_of};

use crate::entry::Kind;
use crate::opts::Opts;
use crate::path::PathName;
use crate::route::Routes;
use crate::var::Var;
use hs_text::{Text, TextList};
use std::cmp::Ordering;
use std::slice;

/// A part of the state that can be asked for by itself.
#[derive(Clone, Drop)]
pub enum Loc {
    /// The kind of what the path has.
    Kind(PathName),
    /// The bytes of a file.
    Bytes(PathName),
    /// The names of the entries of a folder.
    Names(PathName),
    /// A variable.
    Var(Text),
    /// The body of a function, by its number.
    Func(Text),
    /// `$0` and the positional parameters.
    Params,
    /// The status of the last command.
    Status,
    /// The current folder.
    Cwd,
    /// The options of the shell.
    Opts,
    /// What standard input has left.
    Input,
    /// Where the descriptors 1 to 9 lead by the innermost table.
    Routes,
    /// Where the descriptors 1 to 9 lead in the end.
    Ends,
    /// What the innermost capture has taken up.
    Captured,
    /// What a descriptor that was opened for reading has left.
    Kept(u8),
}

impl Loc {
    /// The number of the part of the state.
    fn part(&self) -> u8
        ensures { result ≡ part_of self.now }
    {
        match self {
            Loc::Kind(_) => 0,
            Loc::Bytes(_) => 1,
            Loc::Names(_) => 2,
            Loc::Var(_) => 3,
            Loc::Func(_) => 4,
            Loc::Params => 5,
            Loc::Status => 6,
            Loc::Cwd => 7,
            Loc::Opts => 8,
            Loc::Input => 9,
            Loc::Routes => 10,
            Loc::Ends => 11,
            Loc::Captured => 12,
            Loc::Kept(_) => 13,
        }
    }

    /// The path or the name that is asked for.
    fn subject(&self) -> &[Text]
        ensures { result.now ≡ subject_of self.now }
    {
        match self {
            Loc::Kind(path) => path.names(),
            Loc::Bytes(path) => path.names(),
            Loc::Names(path) => path.names(),
            Loc::Var(name) => slice::from_ref(name),
            Loc::Func(name) => slice::from_ref(name),
            _ => &[],
        }
    }

    fn descriptor(&self) -> u8
        ensures { result ≡ descriptor_of self.now }
    {
        match self {
            Loc::Kept(descriptor) => *descriptor,
            _ => 0,
        }
    }
}

impl PartialEq for Loc {
    ghost eq = { eq_by_cmp loc_cmp };

    ghost laws = { partial_equiv_from_equiv (eq_by_cmp_equiv locs_total) };

    fn eq(&self, other: &Loc) -> bool {
        self.cmp(other) == Ordering::Equal
    }
}

impl Eq for Loc {
    ghost laws = { eq_by_cmp_equiv locs_total };
}

impl PartialOrd for Loc {
    ghost partial_cmp = { as_partial_cmp loc_cmp };

    ghost laws = { partial_order_from_total locs_total };

    fn partial_cmp(&self, other: &Loc) -> Option<Ordering> {
        Some(self.cmp(other))
    }
}

/// By the part of the state, and then by the path, name or descriptor.
impl Ord for Loc {
    ghost cmp = { loc_cmp };

    ghost total = { locs_total };

    ghost matches_partial_cmp = { λ x y. refl };

    ghost matches_eq = { λ x y. refl };

    fn cmp(&self, other: &Loc) -> Ordering {
        self.part()
            .cmp(&other.part())
            .then(self.subject().cmp(other.subject()))
            .then(self.descriptor().cmp(&other.descriptor()))
    }
}

/// What a location holds.
#[derive(Clone, Drop)]
pub enum Value {
    Kind(Kind),
    Bytes(Option<Text>),
    Names(Option<TextList>),
    Var(Option<Var>),
    Func(Option<u32>),
    Params(Text, TextList),
    Status(u8),
    Cwd(PathName),
    Opts(Opts),
    Input(Text),
    Routes(Routes),
    Ends(Routes),
    Captured(Text),
    Kept(Option<Text>),
}
