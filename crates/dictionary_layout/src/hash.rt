// A term's chain and bucket.
ghost use Rattle.std.specs.Prelude.{◌≡◌, ◌≤◌, length};
ghost use Rattle.common.specs.Sizes.{term_limit};
ghost use Rattle.dictionary_layout.specs.Terms.{term};
ghost use Rattle.dictionary_layout.specs.Digest.{digest_of};

use crate::values::Digest;
use common::HEADS_WIDTH;

// A chain for each head of a table.
const CHAIN_COUNT: u64 = HEADS_WIDTH as u64;

pub fn digest(kind: u32, bytes: &[u8]) -> Digest
    requires { length bytes.now ≤ term_limit }
    ensures { result ≡ digest_of (term kind bytes.now) }
{
    let mut sum = u64::from(kind);
    let mut hash = u64::from(kind);
    for b in bytes {
        let b = u64::from(*b);
        sum += b;
        hash = (hash + b) * 2654435761 % 4294967296;
    }
    Digest {
        chain: (sum % CHAIN_COUNT) as usize,
        bucket: (hash / 65536) as usize,
    }
}
