//! The bands over a range, the band of a number, and the numbers of a band.
ghost use Rattle.std.specs.Prelude.{◌≡◌, ◌*◌, ◌<◌, ◌≤◌, ◌⊎◌, pos, ◌+ℤ◌, ◌≤ℤ◌, ◌<ℤ◌, IfSome, IfNone};
ghost use Rattle.cts_geom.specs.Coordinate.{IsCoordinate};
ghost use Rattle.cts_block.specs.Raster.{band_of, end_of};

use crate::bands::Bands;
use crate::whole::Range;

/// So many bands over a range, the last of which may go on beyond it.
pub fn bands_over(range: Range, count: usize) -> Bands
    requires low { IsCoordinate range.low }
    requires high { IsCoordinate range.high }
    requires ordered { range.low ≤ℤ range.high }
    requires some { 0 < count }
    requires few { count ≤ 64 }
    ensures low { result.low ≡ range.low }
    ensures end { range.high <ℤ end_of result }
    ensures count { result.count ≡ count }
{
    Bands {
        low: range.low,
        size: range.low.abs_diff(range.high) / count as u64 + 1,
        count,
    }
}

/// The band in which a number lies, if it lies in one.
pub fn band_with(bands: &Bands, number: i64) -> Option<usize>
    ensures within { IfSome result (λ band. band < bands.now.count) }
    ensures low { IfSome result (λ band. (band_of bands.now band).low ≤ℤ number) }
    ensures high { IfSome result (λ band. number ≤ℤ (band_of bands.now band).high) }
    ensures outside { IfNone result ((number <ℤ bands.now.low) ⊎ (end_of bands.now ≤ℤ number)) }
{
    if number < bands.low {
        return None;
    }
    let band = number.abs_diff(bands.low) / bands.size;
    if band < bands.count as u64 {
        Some(band as usize)
    } else {
        None
    }
}

/// The numbers of a band.
pub fn numbers_of(bands: &Bands, band: usize) -> Range
    requires { band < bands.now.count }
    ensures low { result.low ≡ (band_of bands.now band).low }
    ensures high { result.high ≡ (band_of bands.now band).high }
{
    let low = bands.low + (bands.size * band as u64) as i64;
    Range {
        low,
        high: low + bands.size as i64 - 1,
    }
}
