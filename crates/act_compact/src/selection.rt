//! Which files a minor compaction takes.
ghost use Rattle.std.specs.Prelude.{◌≡◌, ◌≤◌, ◌<◌, ◌+◌, ◌*◌, ◌^◌, length, sum, take, drop, min, ◌-◌, nat_lt};
ghost use Rattle.act_compact.specs.Selection.{behind, is_too_large, are_too_few, IsSelected};

/// By what files are selected.
#[derive(Clone, Copy, Debug, PartialEq, Eq)]
pub struct SelectParams {
    /// How many tenths of the files behind it a file may have.
    pub ratio_tenths: u32,
    /// How many files are taken at least.
    pub min: u32,
    /// How many files are taken at most.
    pub max: u32,
    /// A file of no more bytes is never too large.
    pub min_size: u64,
}

/// The sum of sizes.
fn sum_of(sizes: &[u64]) -> u128
    requires { length sizes.now < 2 ^ 32 }
    ensures exact { result ≡ sum sizes.now }
    ensures small { result < 2 ^ 96 }
{
    let mut all = 0;
    for size in sizes {
        all += *size as u128;
    }
    all
}

/// The sizes behind a position that could be taken with it.
fn sizes_behind<'a>(sizes: &'a [u64], max: u32, at: usize) -> &'a [u64]
    requires { at < length sizes.now }
    ensures exact { result.now ≡ take (max - 1) (drop (at + 1) sizes.now) }
    ensures short { length result.now < 2 ^ 32 }
{
    let (_, rest) = sizes.split_at(at + 1);
    let most = max.saturating_sub(1) as usize;
    if rest.len() <= most {
        rest
    } else {
        rest.split_at(most).0
    }
}

/// Whether a file is too large for those behind it.
fn is_too_large(sizes: &[u64], params: SelectParams, at: usize) -> bool
    requires { at < length sizes.now }
    ensures { result ≡ is_too_large params sizes.now at }
{
    let behind = sum_of(sizes_behind(sizes, params.max, at));
    let size = sizes[at];
    params.min_size < size && params.ratio_tenths as u128 * behind < 10 * size as u128
}

/// Whether too few files are left from a position on.
fn are_too_few(sizes: &[u64], params: SelectParams, at: usize) -> bool
    requires { at ≤ length sizes.now }
    ensures { result ≡ are_too_few params sizes.now at }
{
    sizes.len() - at < params.min as usize
}

/// Where the files that are taken from a position on end.
fn end_of(sizes: &[u64], params: SelectParams, start: usize) -> usize
    requires { start ≤ length sizes.now }
    ensures { result ≡ min (start + params.max) (length sizes.now) }
{
    if sizes.len() - start < params.max as usize {
        sizes.len()
    } else {
        start + params.max as usize
    }
}

/// The range of files that a minor compaction takes, of those of these sizes, the oldest first: the position where it
/// begins and the one where it ends. It takes no memory.
///
/// Source: HBase Reference Guide, Compaction; `RatioBasedCompactionPolicy`.
pub fn select(sizes: &[u64], params: &SelectParams) -> Option<(usize, usize)>
    requires { (2 ≤ params.now.min) × (params.now.min ≤ params.now.max) }
    ensures { IsSelected params.now sizes.now result }
{
    let mut start = 0;
    while !are_too_few(sizes, *params, start) {
        if !is_too_large(sizes, *params, start) {
            return Some((start, end_of(sizes, *params, start)));
        }
        start += 1;
    }
    None
}
