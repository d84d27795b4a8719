// How much a made scene has.
ghost use Rattle.std.specs.Prelude.{◌≡◌};
ghost use Rattle.lc_make.specs.Made.{light_count, sample_count, triangle_count};

/// The lights of a made scene: its point lights, the 512 samples of its panel, and its sun.
pub fn light_count(n: u32) -> u32
    ensures { result ≡ light_count n }
{
    1000 + n % 4000 + 513
}

/// The triangles of a made scene: two of the floor, and twelve of each box.
pub fn triangle_count(n: u32) -> u32
    ensures { result ≡ triangle_count n }
{
    2 + 12 * (1 + n % 40)
}

/// The samples of a made scene's picture: one in each of its 32 by 24 pixels.
pub fn sample_count() -> u32
    ensures { result ≡ sample_count }
{
    32 * 24
}
