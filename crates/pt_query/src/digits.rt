// The digits of a vector at a position, without memory.
ghost use Rattle.std.specs.Prelude.{◌≡◌, ◌↔◌, ◌≤◌, ◌<◌, ◌^◌, length, IsTrue};
ghost use Rattle.pt_sets.specs.Words.{AreSigns, parities};
ghost use Rattle.pt_query.specs.Shifting.{shifted};

/// Whether each component is 0 or -1 behind the first k digits.
pub(crate) fn are_signs_behind(z: &[i128], k: u32) -> bool
    requires { k ≤ 127 }
    ensures signs { IsTrue result ↔ AreSigns (shifted k z.now) }
    ensures last { k ≡ 127 → IsTrue result }
{
    for x in z {
        let rest = *x >> k;
        if rest != 0 && rest != -1 {
            return false;
        }
    }
    true
}

/// The letter of the digits at position k.
pub(crate) fn letter_at(z: &[i128], k: u32) -> u16
    requires few { length z.now ≤ 10 }
    requires position { k ≤ 127 }
    ensures { result ≡ parities (shifted k z.now) }
{
    let mut letter = 0u16;
    for i in (0..z.len()).rev() {
        letter = 2 * letter + (z[i] >> k).rem_euclid(2) as u16;
    }
    letter
}

/// How many letters there are, `2^tracks`.
pub(crate) fn letters(tracks: u32) -> u16
    requires { tracks ≤ 10 }
    ensures value { result ≡ 2 ^ tracks }
    ensures few { result ≤ 1024 }
{
    1u16 << tracks
}
