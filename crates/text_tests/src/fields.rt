//! A call of each reader and writer.

use std::test::Fail;
use zq_fields::{
    read_byte, read_bytes, read_i64, read_i128, read_u32, read_u64, write_byte, write_bytes,
    write_i64, write_i128, write_u32, write_u64,
};

#[test]
fn fields_are_written_and_read(rt: HostRuntime) -> Result<(), Fail> {
    let mut out = Vec::new(rt.alloc());
    write_byte(&mut out, 7)?;
    write_u32(&mut out, 0x0102_0304)?;
    write_u64(&mut out, 281_474_976_710_655)?;
    write_i64(&mut out, -2)?;
    write_bytes(&mut out, b"qa")?;
    let expected =
        b"\x07\x01\x02\x03\x04\x00\x00\xff\xff\xff\xff\xff\xff\xff\xff\xff\xff\xff\xff\xff\xfeqa";
    assert_eq!(rt; out.as_slice(), expected.as_slice());
    let (byte, rest) = read_byte(&out).ok_or("a byte")?;
    let (four, rest) = read_u32(rest).ok_or("four bytes")?;
    let (eight, rest) = read_u64(rest).ok_or("eight bytes")?;
    let (signed, rest) = read_i64(rest).ok_or("a signed number")?;
    let (text, rest) = read_bytes(rest, 1).ok_or("a text")?;
    assert_eq!(rt;
        (byte, four, eight, signed),
        (7, 0x0102_0304, 281_474_976_710_655, -2)
    );
    assert_eq!(rt; text, b"q".as_slice());
    assert_eq!(rt; rest, b"a".as_slice());
    Ok(())
}

#[test]
fn missing_bytes_are_found(rt: HostRuntime) {
    assert!(rt; read_byte(b"").is_none());
    assert!(rt; read_u32(b"\x00\x00\x00").is_none());
    assert!(rt; read_u64(b"\x00\x00\x00\x00\x00\x00\x00").is_none());
    assert!(rt; read_i64(b"\x00\x00\x00\x00\x00\x00\x00").is_none());
    assert!(rt; read_bytes(b"q", 2).is_none());
}

#[test]
fn sixteen_bytes_are_written_and_read(rt: HostRuntime) -> Result<(), Fail> {
    let mut out = Vec::new(rt.alloc());
    write_i128(&mut out, -258)?;
    let expected = b"\xff\xff\xff\xff\xff\xff\xff\xff\xff\xff\xff\xff\xff\xff\xfe\xfe";
    assert_eq!(rt; out.as_slice(), expected.as_slice());
    let (number, rest) = read_i128(&out).ok_or("sixteen bytes")?;
    assert_eq!(rt; number, -258);
    assert!(rt; rest.is_empty() && read_i128(&expected[..15]).is_none());
    Ok(())
}
