// One of two sets, over the tracks of the result.
ghost use Rattle.std.specs.Prelude.{◌≡◌, ◌<◌, ◌≤◌, ◌^◌, length, IfOk};
ghost use Rattle.pt_sets.specs.Costs.{restricted};
ghost use Rattle.pt_sets.specs.Words.{IsLetter};
ghost use Rattle.pt_sets.specs.Restricting.{IsTrackMap};
ghost use Rattle.pt_product.specs.Pairs.{AreRestrictions};

use pt_digits::{NoMemory, restrict};
use pt_handles::Handle;
use std::alloc::Global;
use std::marker::Model;

/// A handle whose track i is track `map[i]` of the result, with each letter of the result restricted to these tracks.
#[derive(Drop)]
pub(crate) struct Side {
    handle: Handle,
    map: Vec<u8>,
    tracks: u32,
    letters: Vec<u16>,
}

impl Model for Side {
    ghost use Rattle.std.specs.Prelude.{◌≤◌};
    ghost use Rattle.pt_sets.specs.Restricting.{IsTrackMap};
    ghost use Rattle.pt_product.specs.Pairs.{OneSide, AreRestrictions};

    ghost Value = { OneSide };

    ghost view = { λ s. record { handle = s.handle; map = s.map.items; tracks = s.tracks } };

    ghost invariant = { λ s. IsTrackMap s.handle.tracks s.tracks s.map.items × AreRestrictions s.map.items s.tracks s.letters.items };
}

/// The letters of so many tracks, each restricted to the tracks of a map.
fn restrictions(alloc: Global, tracks_of: &[u8], tracks: u32) -> Result<Vec<u16>, NoMemory>
    requires fits { IsTrackMap (length tracks_of.now) tracks tracks_of.now }
    requires few { length tracks_of.now ≤ 10 }
    requires tracks { tracks ≤ 10 }
    ensures { IfOk result (λ letters. AreRestrictions tracks_of.now tracks letters.items) }
{
    let mut letters = Vec::new(alloc);
    for letter in 0..1u16 << tracks {
        letters.push(restrict(letter, tracks_of))?;
    }
    Ok(letters)
}

impl Side {
    pub(crate) fn new(
        alloc: Global,
        handle: Handle,
        tracks_of: &[u8],
        tracks: u32,
    ) -> Result<Side, NoMemory>
        requires fits { IsTrackMap handle.tracks tracks tracks_of.now }
        requires few { handle.tracks ≤ 10 }
        requires tracks { tracks ≤ 10 }
        ensures handle { IfOk result (λ side. side.handle ≡ handle) }
        ensures map { IfOk result (λ side. side.map ≡ tracks_of.now) }
        ensures tracks { IfOk result (λ side. side.tracks ≡ tracks) }
    {
        let letters = restrictions(alloc, tracks_of, tracks)?;
        let map = Vec::from_slice(alloc, tracks_of)?;
        Ok(Side {
            handle,
            map,
            tracks,
            letters,
        })
    }

    /// The tracks of the result.
    pub(crate) fn tracks(&self) -> u32
        ensures tracks { result ≡ self.now.tracks }
        ensures fits { IsTrackMap self.now.handle.tracks self.now.tracks self.now.map }
    {
        self.tracks
    }

    /// The number of letters of the result.
    pub(crate) fn letters(&self) -> u16
        requires { self.now.tracks ≤ 10 }
        ensures { result ≡ 2 ^ self.now.tracks }
    {
        1 << self.tracks
    }

    /// A letter of the result, restricted to the tracks of the handle.
    pub(crate) fn restricted(&self, letter: u16) -> u16
        requires { letter < 2 ^ self.now.tracks }
        ensures value { result ≡ restricted self.now.map letter }
        ensures letter { IsLetter self.now.handle.tracks result }
    {
        self.letters[letter as usize]
    }
}
