// A handle of a set.
use pt_code::Place;

/// A set of vectors with so many components: a state of a component whose code a store keeps. Three numbers, which are
/// equal exactly where the sets are equal, for handles that one pass knows.
#[derive(Clone, Copy, Debug, PartialEq, Eq, Hash)]
pub struct Handle {
    pub tracks: u32,
    pub place: Place,
    pub entry: u32,
}
