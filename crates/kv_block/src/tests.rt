//! Blocks of pairs, and words that are no block.
use super::*;
use std::test::Fail;

#[test]
fn reads_what_it_packs(rt: HostRuntime) -> Result<(), Fail> {
    let key = Key::from_bytes(b"k").ok_or("no key")?;
    let value = Value::from_bytes(b"1").ok_or("no value")?;
    let block = write_block(&key, &value);
    assert_eq!(rt; block.words(), [65537, 107, 49].as_slice());
    assert_eq!(rt; 65537u64.to_le_bytes(), [1, 0, 1, 0, 0, 0, 0, 0]);
    assert_eq!(rt; 107u64.to_le_bytes(), [0x6b, 0, 0, 0, 0, 0, 0, 0]);
    assert_eq!(rt; 49u64.to_le_bytes(), [0x31, 0, 0, 0, 0, 0, 0, 0]);
    assert!(rt; read_block(&[65537, 107, 49]) == Some((key, value)));
    assert!(rt; read_block(&[65537, 107]).is_none());
    assert!(rt; read_block(&[65537, 49, 107]) != Some((key, value)));
    assert!(rt; read_block(&[65537, 107 + 256, 49]).is_none());
    Ok(())
}

#[test]
fn lengths(rt: HostRuntime) -> Result<(), Fail> {
    let bytes = [7; 1025];
    assert!(rt; Key::from_bytes(&bytes[..0]).is_none());
    assert!(rt; Key::from_bytes(&bytes[..65]).is_none());
    assert!(rt; Value::from_bytes(&bytes).is_none());
    let least = Key::from_bytes(&bytes[..1]).ok_or("a key of one byte")?;
    let most = Key::from_bytes(&bytes[..64]).ok_or("a key of 64 bytes")?;
    let empty = Value::from_bytes(&bytes[..0]).ok_or("an empty value")?;
    let long = Value::from_bytes(&bytes[..1024]).ok_or("a value of 1,024 bytes")?;
    assert_eq!(rt; write_block(&least, &empty).len(), 2);
    assert_eq!(rt; write_block(&most, &long).len(), 137);
    assert!(rt; least < most);
    Ok(())
}

#[test]
fn a_list_grows(rt: HostRuntime) -> Result<(), Fail> {
    let key = Key::from_bytes(b"k").ok_or("no key")?;
    let mut changes = Changes::new(rt.alloc());
    assert!(rt; changes.is_empty());
    changes.reserve()?;
    changes.push(Change { key, value: None })?;
    assert_eq!(rt; changes.len(), 1);
    assert!(rt; changes.get(0) == Change { key, value: None });
    Ok(())
}
