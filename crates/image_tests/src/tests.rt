//! Images as numbers, and how a table of changes is tried.
use byteorder::{ByteOrder, LittleEndian};
use image_audit::Audit;
use node_image::{ImageFault, audit_bytes};
use std::alloc::{AllocError, Global};

mod commands;
mod one_key;
mod openings;
mod splits;
mod two_groups;

/// What an audit tells, without the map.
#[derive(Clone, Copy, Debug, PartialEq, Eq)]
enum Told {
    Sound,
    Bad(u64),
    Malformed,
}

/// Numbers of an image that are changed, each by its place among the numbers; and what is told of the image then.
type Row = (&'static [(usize, u64)], Told);

/// The bytes of numbers.
fn spelled(alloc: Global, numbers: &[u64]) -> Result<Vec<u8>, AllocError> {
    let mut bytes = Vec::new(alloc);
    for number in numbers {
        let mut eight = [0; 8];
        LittleEndian::write_u64(&mut eight, *number);
        bytes.extend_from_slice(&eight)?;
    }
    Ok(bytes)
}

/// What is told of bytes.
fn audited(alloc: Global, bytes: &[u8]) -> Result<Told, AllocError> {
    match audit_bytes(alloc, bytes) {
        Ok(Audit::Sound(_)) => Ok(Told::Sound),
        Ok(Audit::Bad { at }) => Ok(Told::Bad(at)),
        Err(ImageFault::Malformed) => Ok(Told::Malformed),
        Err(ImageFault::OutOfMemory) => Err(AllocError),
    }
}

/// The numbers after some changes.
fn changed(
    alloc: Global,
    numbers: &[u64],
    changes: &[(usize, u64)],
) -> Result<Vec<u64>, AllocError> {
    let mut changed = Vec::new(alloc);
    changed.extend_from_slice(numbers)?;
    for (at, number) in changes {
        if *at < changed.len() {
            changed[*at] = *number;
        }
    }
    Ok(changed)
}

/// The first row of which something else is told, by its place.
fn first_other(
    alloc: Global,
    numbers: &[u64],
    rows: &'static [Row],
) -> Result<Option<usize>, AllocError> {
    for i in 0..rows.len() {
        let (changes, wanted) = rows[i];
        let numbers = changed(alloc, numbers, changes)?;
        let bytes = spelled(alloc, &numbers)?;
        if audited(alloc, &bytes)? != wanted {
            return Ok(Some(i));
        }
    }
    Ok(None)
}
