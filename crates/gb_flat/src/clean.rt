//! Values dealt out by ranges that part no equal neighbours.

ghost use Rattle.std.specs.Prelude.{◌≡◌, ℕ, ◌+◌, ◌-◌, ◌<◌, ◌≤◌, true, length, map, slice_index_or, All, IfOk, IfErr};
ghost use Rattle.std.specs.List.{flat_map};
ghost use Rattle.gb_defs.specs.Flat.{starts_from};
ghost use Rattle.gb_base.specs.PlSmallStr.{IsNoMemory};
ghost use Rattle.gb_flat.specs.Clean.{BeginsClean, clean_cut, clean_ranges, in_range};

use gb_base::error::PolarsResult;
use std::alloc::Global;

/// The ranges of the values between cuts near equal parts, so many at most: a cut stands where a value
/// differs from the one before it, so that no two equal neighbours are parted. A range is its start and
/// its length. A place that the last cut has passed has the same cut and is not sought again, so that no
/// two neighbours are compared twice.
pub fn create_clean_partitions<T: Copy + Eq>(
    alloc: Global,
    values: &[T],
    n: usize,
) -> PolarsResult<Vec<(usize, usize)>>
    requires { 1 ≤ n }
    ensures ok { IfOk result (λ parts. parts.items ≡ clean_ranges T.eq values.now n) }
    ensures few { IfOk result (λ parts. length parts.items ≤ n) }
    ensures filled { IfOk result (λ parts. All (λ part. 0 < part.1) parts.items) }
    ensures follow { IfOk result (λ parts.
        map (λ part. part.0) parts.items ≡ starts_from 0 (map (λ part. part.1) parts.items)) }
    ensures inside { IfOk result (λ parts.
        All (λ part. part.0 + part.1 ≤ length values.now) parts.items) }
    ensures cover { IfOk result (λ parts.
        flat_map (in_range values.now) parts.items ≡ values.now) }
    ensures clean { IfOk result (λ parts.
        All (λ part. BeginsClean T.eq values.now part.0) parts.items) }
    ensures err { IfErr result IsNoMemory }
{
    let len = values.len();
    let most = n.min(len);
    let each = (len / n).max(1);
    let mut parts = Vec::with_capacity(alloc, most)?;
    let mut start = 0;
    for k in 1..most {
        let at = k * each;
        if start < at {
            let cut = clean_cut(values, at);
            parts.push_reserved((start, cut - start));
            start = cut;
        }
    }
    if start < len {
        parts.push_reserved((start, len - start));
    }
    Ok(parts)
}

// The least place, not below this one, that is the end or whose value differs from the one before it.
fn clean_cut<T: Copy + Eq>(values: &[T], at: usize) -> usize
    requires behind { 1 ≤ at }
    requires inside { at < length values.now }
    ensures cut { result ≡ clean_cut T.eq values.now at }
    ensures up { at ≤ result }
    ensures within { result ≤ length values.now }
    ensures differs { result < length values.now → BeginsClean T.eq values.now result }
    ensures least { (place : ℕ) (d : T) → at ≤ place → place < result
        → T.eq (slice_index_or values.now (place - 1) d) (slice_index_or values.now place d)
        ≡ true }
{
    let mut cut = at;
    while cut < values.len() && values[cut - 1] == values[cut] {
        cut += 1;
    }
    cut
}
