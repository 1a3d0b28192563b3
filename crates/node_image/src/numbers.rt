//! The numbers of bytes, and the bytes of numbers.
ghost use Rattle.std.specs.Prelude.{◌≡◌, ℕ, ◌*◌, ◌%◌, ◌<◌, ◌^◌, ◌++◌, length, IfOk, OnOk};
ghost use Rattle.byteorder.specs.Endian.{little_bytes};
ghost use Rattle.kv_block.specs.Packing.{bytes_of};
ghost use Rattle.race_laws.specs.Standing.{IsIn};

use byteorder::{ByteOrder, LittleEndian};
use race_io::Bytes;
use std::alloc::{AllocError, Global};

/// The numbers that bytes are, eight bytes each, the lowest first.
pub(crate) fn read_numbers(alloc: Global, bytes: &[u8]) -> Result<Vec<u64>, AllocError>
    requires { length bytes.now % 8 ≡ 0 }
    ensures bytes { IfOk result (λ numbers. bytes.now ≡ bytes_of numbers.items) }
    ensures small { IfOk result (λ numbers. (x : ℕ) → IsIn x numbers.items → x < 2 ^ 64) }
{
    let count = bytes.len() / 8;
    let mut numbers = vec![in alloc; 0; count]?;
    fill(bytes, &mut numbers);
    Ok(numbers)
}

/// Reads as many numbers as there are places.
fn fill(bytes: &[u8], numbers: &mut [u64])
    requires { length bytes.now ≡ 8 * length numbers.old }
    ensures bytes { bytes.now ≡ bytes_of numbers.new }
    ensures small { (x : ℕ) → IsIn x numbers.new → x < 2 ^ 64 }
{
    LittleEndian::read_u64_into(bytes, numbers);
}

/// Appends a number, as eight bytes, the lowest first.
fn push_number(bytes: &mut Bytes, number: u64) -> Result<(), AllocError>
    ensures { OnOk result (bytes.new.items ≡ bytes.old.items ++ little_bytes 8 number) }
{
    let mut eight = [0; 8];
    LittleEndian::write_u64(&mut eight, number);
    bytes.append(&eight)
}

/// The bytes of numbers, eight bytes each, the lowest first.
pub(crate) fn write_bytes(alloc: Global, numbers: &[u64]) -> Result<Bytes, AllocError>
    ensures bytes { IfOk result (λ bytes. bytes.items ≡ bytes_of numbers.now) }
    ensures small { (x : ℕ) → IsIn x numbers.now → x < 2 ^ 64 }
{
    let mut bytes = Bytes::new(alloc);
    for number in numbers {
        push_number(&mut bytes, *number)?;
    }
    Ok(bytes)
}
