//! A hash key for a program that strangers talk to.

use am_record::HashKey;
use std::random::RandomSource;
use std::rt::Clock;
use std::time::{SystemTime, UNIX_EPOCH};

/// A hash key of the system's random bytes, which no stranger knows. Where the system gives none, it is one of the
/// clock, which a stranger may guess: then keys can be chosen that have one number, and a look for them takes longer.
pub fn draw_hash_key<R: RandomSource + Clock>(rt: &R) -> HashKey {
    let mut bytes = [0; 16];
    if rt.fill_bytes(&mut bytes).is_err() {
        return hash_key_of_clock(rt);
    }
    let words = u128::from_le_bytes(bytes);
    HashKey::new((words % (1 << 64)) as u64, (words >> 64) as u64)
}

fn hash_key_of_clock<R: Clock>(rt: &R) -> HashKey {
    let Ok(now) = SystemTime::now(rt) else {
        return HashKey::known();
    };
    let since = now.duration_since(UNIX_EPOCH).unwrap_or_default();
    let nanos = u64::from(since.subsec_nanos());
    let seconds = since.as_secs();
    HashKey::new(
        nanos.wrapping_mul(0x9E37_79B9_7F4A_7C15),
        seconds.wrapping_mul(0xBF58_476D_1CE4_E5B9) ^ nanos,
    )
}
