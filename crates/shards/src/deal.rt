//! Dealing tenants to shards, by name.

ghost use Rattle.std.specs.Prelude.{◌≡◌, ◌<◌, ◌%◌, ◌^◌};
ghost use Rattle.dealing.specs.Dealing.{dealt, mixed};

use model::TenantName;

/// The shard that a tenant is dealt to, of so many.
#[tactic(auto, unfolding(dealing::specs::Dealing::dealt))]
pub(crate) fn shard_of(tenant: &TenantName, shards: usize) -> usize
    requires { 0 < shards }
    ensures is { result ≡ dealt shards tenant.now }
    ensures below { result < shards }
{
    mix(tenant.as_str().as_bytes()) as usize % shards
}

/// A number below 65,521 that follows from some bytes.
fn mix(bytes: &[u8]) -> u64
    ensures { result ≡ mixed 0 bytes.now }
{
    let mut mixed = 0u64;
    for byte in bytes {
        mixed = folded(mixed) * 31 + u64::from(*byte);
    }
    mixed % 65521
}

/// A number with the same remainder, which is small enough to go on from. Names are short: mostly it is the number.
fn folded(mixed: u64) -> u64
    ensures same { result % 65521 ≡ mixed % 65521 }
    ensures small { result < 2 ^ 56 }
{
    if mixed < 1 << 56 {
        mixed
    } else {
        mixed % 65521
    }
}
