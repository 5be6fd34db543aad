// What a combination of two sets is asked for.
ghost use Rattle.std.specs.Prelude.{◌≡◌, ◌+◌, ◌^◌, ◌<◌, ◌≤◌, ◌++◌, List, length};
ghost use Rattle.std.specs.List.{AllByRecursion};
ghost use Rattle.std.specs.Hash as fed;
ghost use Rattle.std.specs.Cmp.Rules.{hashing};
ghost use Rattle.std.proofs.Common.{rules};
ghost use Rattle.pt_product.specs.TrackSets.{track_set};
ghost use Rattle.pt_product.specs.Caching.{combination};

use pt_formula::Op;
use pt_handles::Handle;
use std::hash::{Hash, Hasher};

/// An operation on the sets of two handles over the tracks of a result. A map is the set of its tracks: bit i for track i.
#[derive(Clone, Copy, Debug, PartialEq, Eq)]
pub struct Combination {
    pub op: Op,
    pub a: Handle,
    pub map_a: u16,
    pub b: Handle,
    pub map_b: u16,
    pub tracks: u32,
}

// The operations on the same sets are few, and hash alike.
impl Hash for Combination {
    ghost hash_input = { λ c. ⟦<Handle as Hash>⟧.hash_input c.a ++ ⟦<Handle as Hash>⟧.hash_input c.b ++ fed.u16 c.map_a ++ fed.u16 c.map_b ++ fed.u32 c.tracks };

    ghost respects_eq = { Prim.search (hashing, rules) };

    fn hash<H: Hasher>(&self, state: &mut H) {
        self.a.hash(state);
        self.b.hash(state);
        state.write_u16(self.map_a);
        state.write_u16(self.map_b);
        state.write_u32(self.tracks);
    }
}

impl Combination {
    /// An operation on two sets over so many tracks.
    pub(crate) fn new(
        op: Op,
        a: Handle,
        map_a: &[u8],
        b: Handle,
        map_b: &[u8],
        tracks: u32,
    ) -> Combination
        requires few_a { length map_a.now ≤ 10 }
        requires few_b { length map_b.now ≤ 10 }
        requires map_a { AllByRecursion (λ i. i < 10) map_a.now }
        requires map_b { AllByRecursion (λ i. i < 10) map_b.now }
        ensures { result ≡ combination op a map_a.now b map_b.now tracks }
    {
        Combination {
            op,
            a,
            map_a: track_set(map_a),
            b,
            map_b: track_set(map_b),
            tracks,
        }
    }
}

/// The set of a track alone.
fn track_bit(track: u8) -> u16
    requires { track < 10 }
    ensures value { result ≡ 2 ^ track }
    ensures bound { result ≤ 512 }
{
    1 << track
}

/// The set of the tracks of a map.
fn track_set(map: &[u8]) -> u16
    requires few { length map.now ≤ 10 }
    requires tracks { AllByRecursion (λ i. i < 10) map.now }
    ensures { result ≡ track_set map.now }
{
    let mut set = 0;
    for track in map {
        set += track_bit(*track);
    }
    set
}
