//! Places between the bytes of a word that is split.

ghost use Rattle.std.specs.Prelude.{◌≡◌};
ghost use Rattle.sh_split.specs.Fields as spec;

/// A place, by what stands before it.
#[derive(Clone, Copy, Debug, PartialEq, Eq)]
pub enum Place {
    /// The beginning, or a delimiter that is no white space: a field may begin.
    Between,
    /// A field, which goes on.
    Within,
    /// White space that ended a field. A delimiter that comes now belongs to it.
    Behind,
}

/// Whether a delimiter, white space or not, ends a field here.
pub fn ends(place: Place, white: bool) -> bool
    ensures { result ≡ spec.ends place white }
{
    match place {
        Place::Between => !white,
        Place::Within => true,
        Place::Behind => false,
    }
}

/// The place after a delimiter.
pub fn next(place: Place, white: bool) -> Place
    ensures { result ≡ spec.next place white }
{
    match place {
        _ if !white => Place::Between,
        Place::Between => Place::Between,
        Place::Within => Place::Behind,
        Place::Behind => Place::Behind,
    }
}
