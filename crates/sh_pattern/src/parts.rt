//! The prefixes and suffixes of a text that a pattern matches (POSIX.1-2017, XCU 2.6.2). No call takes memory.

ghost use Rattle.std.specs.Prelude.{◌≡◌, length};
ghost use Rattle.sh_pattern.specs.Match.{IsLeast, IsGreatest, matches_prefix, matches_suffix};

use crate::matching::matches;
use crate::pattern::Pattern;

/// The length of the smallest prefix that matches. It takes as many steps as `matches` for each shorter prefix.
pub fn smallest_prefix(pattern: &Pattern, bytes: &[u8]) -> Option<usize>
    ensures { IsLeast (matches_prefix pattern.now bytes.now) (length bytes.now) result }
{
    for len in 0..bytes.len() + 1 {
        if matches(pattern, &bytes[..len]) {
            return Some(len);
        }
    }
    None
}

/// The length of the largest prefix that matches. It takes as many steps as `matches` for each longer prefix.
pub fn largest_prefix(pattern: &Pattern, bytes: &[u8]) -> Option<usize>
    ensures { IsGreatest (matches_prefix pattern.now bytes.now) (length bytes.now) result }
{
    for after in 0..bytes.len() + 1 {
        let len = bytes.len() - after;
        if matches(pattern, &bytes[..len]) {
            return Some(len);
        }
    }
    None
}

/// The length of the smallest suffix that matches. It takes as many steps as `matches` for each shorter suffix.
pub fn smallest_suffix(pattern: &Pattern, bytes: &[u8]) -> Option<usize>
    ensures { IsLeast (matches_suffix pattern.now bytes.now) (length bytes.now) result }
{
    for len in 0..bytes.len() + 1 {
        if matches(pattern, &bytes[bytes.len() - len..]) {
            return Some(len);
        }
    }
    None
}

/// The length of the largest suffix that matches. It takes as many steps as `matches` for each longer suffix.
pub fn largest_suffix(pattern: &Pattern, bytes: &[u8]) -> Option<usize>
    ensures { IsGreatest (matches_suffix pattern.now bytes.now) (length bytes.now) result }
{
    for before in 0..bytes.len() + 1 {
        if matches(pattern, &bytes[before..]) {
            return Some(bytes.len() - before);
        }
    }
    None
}
