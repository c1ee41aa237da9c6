//! Externals by name.

ghost use Rattle.std.specs.Prelude.{◌≡◌, map};
ghost use Rattle.ht_values.specs.Text.{same};
ghost use Rattle.journal_entries.specs.State.{has_name as has_title, index_of as index_of_title};
ghost use Rattle.journal_entries.specs.State.{are_apart as apart_titles};

use externals::External;
use ht_values::Text;

/// Whether two names are the same.
fn is_same(name: &Text, other: &Text) -> bool
    ensures { result ≡ same name.now other.now }
{
    name.same(other)
}

/// The number of the first of these whose name is the same.
pub fn index_of<E: External>(externals: &[E], name: &Text) -> Option<usize>
    ensures { result ≡ index_of_title name.now (map E.title externals.now) }
{
    for i in 0..externals.len() {
        if is_same(externals[i].name(), name) {
            return Some(i);
        }
    }
    None
}

/// Whether one of these has a name that is the same.
pub fn has_name<E: External>(externals: &[E], name: &Text) -> bool
    ensures { result ≡ has_title name.now (map E.title externals.now) }
{
    for external in externals {
        if is_same(external.name(), name) {
            return true;
        }
    }
    false
}

/// Whether no two of these have names that are the same.
pub fn are_apart<E: External>(externals: &[E]) -> bool
    ensures { result ≡ apart_titles (map E.title externals.now) }
{
    for i in 0..externals.len() {
        if has_name(&externals[i + 1..], externals[i].name()) {
            return false;
        }
    }
    true
}
