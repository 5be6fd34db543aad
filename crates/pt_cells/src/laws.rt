// Laws of the segments.
ghost use Rattle.std.specs.Prelude.{ℕ, ◌≡◌, ◌*◌, ◌-◌, ◌^◌};
ghost use Rattle.pt_cells.specs.Places.{cells_in};

/// The first so many segments, each twice as long as the one before, have 1,024 cells times one less than a power of two.
/// The 18 of a shard have 268,434,432, as many as it may hold codes.
pub fn segments_have_all_cells()
    ensures first { (segments : ℕ) → cells_in segments ≡ 1024 * (2 ^ segments - 1) }
    ensures all { cells_in 18 ≡ 268434432 }
{}
