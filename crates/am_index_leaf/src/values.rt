//! The values of a leaf, as a column.

use crate::column::{Column, Shortens};
use am_record::{Key, MAX_VALUE_LEN, ShortValue, Value};

/// The values, each of at most 64 bytes.
pub(crate) type Values = Column<Value>;

impl Shortens for Value {
    ghost use Rattle.std.specs.Prelude.{length};
    ghost use Rattle.std.proofs.Common.{arith};
    ghost use Rattle.am_record.specs.Limits.{max_value_bytes};

    type Short = ShortValue;

    const MOST: usize = MAX_VALUE_LEN;

    ghost MOST = { max_value_bytes };

    ghost byte_len = { length };

    ghost long = { λ value. value };

    ghost of_record = { λ _ pair. pair.1 };

    fn byte_len(&self) -> usize {
        self.len()
    }

    fn shortened(self) -> ShortValue {
        let Some(short) = self.short() else {
            unreachable!()
        };
        short
    }

    fn long(short: &ShortValue) -> Value {
        short.value()
    }

    fn of_record(_: u32, pair: &(Key, Value)) -> Value {
        pair.1
    }

    ghost is_longer = { omega arith };

    ghost short_fits = { omega arith };

    ghost wide_fits = { omega arith };
}
