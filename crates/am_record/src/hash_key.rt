//! What the numbers of keys are made by.

ghost use Rattle.std.specs.Prelude.{◌≡◌, bit_or};
ghost use Rattle.am_record.specs.KeyNumber.{fold_in, folded};

/// Two words, by which each key has a number. They are drawn at random where keys come from strangers, since no way is
/// known to choose keys that meet in a number without them. No answer depends on them.
#[derive(Clone, Copy)]
pub struct HashKey {
    first: u64,
    second: u64,
}

impl HashKey {
    /// That of these words. The second is made odd, so that no key's number is zero for it alone.
    pub fn new(first: u64, second: u64) -> HashKey
        ensures { result ≡ record { first = first; second = bit_or second 1 } }
    {
        HashKey {
            first,
            second: second | 1,
        }
    }

    /// One that everybody knows, digits of pi: for tests, and where no stranger chooses keys.
    pub fn known() -> HashKey
        ensures { result ≡ record { first = 0x243F_6A88_85A3_08D3; second = 0x1319_8A2E_0370_7345 } }
    {
        HashKey {
            first: 0x243F_6A88_85A3_08D3,
            second: 0x1319_8A2E_0370_7345,
        }
    }

    // A number with a word folded into it.
    #[tactic(auto, unfolding(crate::specs::KeyNumber::fold_in))]
    pub(crate) fn fold_in(self, number: u64, word: u64) -> u64
        ensures { result ≡ fold_in self number word }
    {
        folded(number ^ self.first, word ^ self.second)
    }
}

// Both halves of a product, the one over the other: each bit of it depends on all of both words.
#[tactic(auto, unfolding(crate::specs::KeyNumber::folded))]
fn folded(a: u64, b: u64) -> u64
    ensures { result ≡ folded a b }
{
    let product = u128::from(a) * u128::from(b);
    (product % (1 << 64)) as u64 ^ (product >> 64) as u64
}
