ghost use Rattle.std.specs.Prelude.{◌≡◌, ◌<◌};
ghost use Rattle.lengths.specs.Limits.{rounded_up};

// The largest charge that may be laid, in mills, on either side of zero.
pub const MOST_MILLS: u64 = 1_000_000;

// The largest delay that may be laid, in milliseconds.
pub const MOST_DELAY: u64 = 1_000;

// `size` divided by `limit`, rounded up: how many limits cover the size.
pub(crate) fn rounded_up(size: u64, limit: u64) -> u64
    requires { 0 < limit }
    ensures { result ≡ rounded_up size limit }
{
    size.div_ceil(limit)
}
