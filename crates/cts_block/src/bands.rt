//! Bands of equal width over a range of whole numbers.
ghost use Rattle.std.specs.Prelude.{◌*◌, ◌^◌, ◌<◌, ◌≤◌};
ghost use Rattle.cts_geom.specs.Coordinate.{IsCoordinate};

/// `count` bands of `size` whole numbers each, from `low` on.
#[derive(Clone, Copy)]
pub struct Bands {
    pub low: i64,
    pub size: u64,
    pub count: usize,
    pub ghost coordinate: { IsCoordinate low },
    pub ghost some: { 0 < size },
    pub ghost narrow: { size ≤ 2 ^ 43 },
    pub ghost bound: { size * count ≤ 2 ^ 43 },
}
