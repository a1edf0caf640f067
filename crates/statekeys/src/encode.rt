//! Values as bytes that tell where they end.
ghost use Rattle.std.specs.Prelude.{◌≡◌, ◌++◌, OnOk, flat_map};
ghost use Rattle.statekeys.specs.KeyCodes.{nat_code, list_code};

use design::PackedBits;
use logic4::bits::Bits;
use std::alloc::AllocError;
use std::collections::VecDeque;

/// A value with a code.
pub(crate) trait Encode {
    ghost use Rattle.std.specs.Prelude.{ℕ, List};

    /// The bytes of a value.
    ghost code: { Self → List ℕ };

    /// Appends the value's bytes. Where memory is refused, some of them may stand there.
    fn encode(&self, bytes: &mut Vec<u8>) -> Result<(), AllocError>
        ensures { OnOk result (bytes.new.items ≡ bytes.old.items ++ code self.now) };
}

/// Appends the code of a number: seven bits a byte, the low ones first, and the eighth bit set while more follow. Where
/// memory is refused, some of its bytes may stand there.
#[inline(always)]
pub(crate) fn put_nat(bytes: &mut Vec<u8>, number: u128) -> Result<(), AllocError>
    ensures { OnOk result (bytes.new.items ≡ bytes.old.items ++ nat_code number) }
{
    if number < 128 {
        bytes.push(number as u8)?;
        return Ok(());
    }
    put_digits(bytes, number)
}

// Appends the code of a number, digit by digit: most numbers have just one.
fn put_digits(bytes: &mut Vec<u8>, number: u128) -> Result<(), AllocError>
    ensures { OnOk result (bytes.new.items ≡ bytes.old.items ++ nat_code number) }
{
    let mut left = number;
    while left >= 128 {
        bytes.push(128 + (left % 128) as u8)?;
        left /= 128;
    }
    bytes.push(left as u8)?;
    Ok(())
}

// Appends the codes of values, one behind the other.
fn put_each<T: Encode>(bytes: &mut Vec<u8>, items: &[T]) -> Result<(), AllocError>
    ensures { OnOk result (bytes.new.items ≡ bytes.old.items ++ flat_map T.code items.now) }
{
    for item in items {
        item.encode(bytes)?;
    }
    Ok(())
}

/// Appends the code of a list. Where memory is refused, some of its bytes may stand there.
pub(crate) fn put_slice<T: Encode>(bytes: &mut Vec<u8>, items: &[T]) -> Result<(), AllocError>
    ensures { OnOk result (bytes.new.items ≡ bytes.old.items ++ list_code T.code items.now) }
{
    put_nat(bytes, items.len() as u128)?;
    put_each(bytes, items)
}

/// Appends the code of a list, as `put_slice` does.
pub(crate) fn put_deque<T: Encode>(
    bytes: &mut Vec<u8>,
    items: &VecDeque<T>,
) -> Result<(), AllocError>
    ensures { OnOk result (bytes.new.items ≡ bytes.old.items ++ list_code T.code items.now.items) }
{
    put_nat(bytes, items.len() as u128)?;
    let (first, second) = items.as_slices();
    put_each(bytes, first)?;
    put_each(bytes, second)
}

impl Encode for u32 {
    ghost code = { nat_code };

    fn encode(&self, bytes: &mut Vec<u8>) -> Result<(), AllocError> {
        put_nat(bytes, u128::from(*self))
    }
}

impl Encode for usize {
    ghost code = { nat_code };

    fn encode(&self, bytes: &mut Vec<u8>) -> Result<(), AllocError> {
        put_nat(bytes, *self as u128)
    }
}

impl Encode for u64 {
    ghost code = { nat_code };

    fn encode(&self, bytes: &mut Vec<u8>) -> Result<(), AllocError> {
        put_nat(bytes, u128::from(*self))
    }
}

impl Encode for bool {
    ghost use Rattle.statekeys.specs.KeyCodes.{bool_code};

    ghost code = { bool_code };

    // Appends 1 for true and 0 for false.
    fn encode(&self, bytes: &mut Vec<u8>) -> Result<(), AllocError> {
        if *self {
            put_nat(bytes, 1)
        } else {
            put_nat(bytes, 0)
        }
    }
}

impl Encode for Bits {
    ghost use Rattle.statekeys.specs.KeyCodes.{vector_code};

    ghost code = { vector_code };

    // Appends the width, and both words.
    fn encode(&self, bytes: &mut Vec<u8>) -> Result<(), AllocError> {
        let (first, second) = self.words();
        put_nat(bytes, u128::from(self.width()))?;
        put_nat(bytes, first)?;
        put_nat(bytes, second)
    }
}

impl Encode for PackedBits {
    ghost use Rattle.statekeys.specs.KeyCodes.{vector_code};

    ghost code = { vector_code };

    fn encode(&self, bytes: &mut Vec<u8>) -> Result<(), AllocError> {
        self.get().encode(bytes)
    }
}

impl<A: Encode, B: Encode> Encode for (A, B) {
    ghost use Rattle.statekeys.specs.KeyCodes.{pair_code};

    ghost code = { pair_code A.code B.code };

    // Appends the first, and the second behind it.
    fn encode(&self, bytes: &mut Vec<u8>) -> Result<(), AllocError> {
        self.0.encode(bytes)?;
        self.1.encode(bytes)
    }
}

impl<A: Encode> Encode for Option<A> {
    ghost use Rattle.statekeys.specs.KeyCodes.{option_code};

    ghost code = { option_code A.code };

    // Appends 0 where there is none, and else 1 and the value behind it.
    fn encode(&self, bytes: &mut Vec<u8>) -> Result<(), AllocError> {
        match self {
            None => put_nat(bytes, 0),
            Some(value) => {
                put_nat(bytes, 1)?;
                value.encode(bytes)
            }
        }
    }
}
