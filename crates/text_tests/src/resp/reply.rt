//! The bytes of replies, as RESP2 has them.

ghost use Rattle.std.specs.Prelude.{IsTrue};
ghost use Rattle.zq_resp.specs.Reply.{is_writable};

use std::alloc::AllocError;
use std::test::Fail;
use zq_resp::{Reply, Text, write_reply};

fn bytes_of(rt: &HostRuntime, reply: &Reply) -> Result<Vec<u8>, AllocError>
    requires { IsTrue (is_writable reply.now) }
{
    let mut out = Vec::new(rt.alloc());
    write_reply(&mut out, reply)?;
    Ok(out)
}

#[test]
fn lines_have_the_bytes_of_resp2(rt: HostRuntime) -> Result<(), Fail> {
    let pong = bytes_of(&rt, &Reply::Simple("PONG"))?;
    assert_eq!(rt; pong.as_slice(), b"+PONG\r\n".as_slice());
    let worn = Reply::Error {
        text: "ERR worn after",
        after: Some(12),
    };
    assert_eq!(rt;
        bytes_of(&rt, &worn)?.as_slice(),
        b"-ERR worn after 12\r\n".as_slice()
    );
    let syntax = Reply::Error {
        text: "ERR syntax error",
        after: None,
    };
    assert_eq!(rt;
        bytes_of(&rt, &syntax)?.as_slice(),
        b"-ERR syntax error\r\n".as_slice()
    );
    assert_eq!(rt;
        bytes_of(&rt, &Reply::Integer(-30))?.as_slice(),
        b":-30\r\n".as_slice()
    );
    assert_eq!(rt;
        bytes_of(&rt, &Reply::Integer(0))?.as_slice(),
        b":0\r\n".as_slice()
    );
    Ok(())
}

#[test]
fn bulk_strings_have_the_bytes_of_resp2(rt: HostRuntime) -> Result<(), Fail> {
    let bulk = Reply::Bulk(Text::from_slice(rt.alloc(), b"a\r\nb")?);
    assert_eq!(rt;
        bytes_of(&rt, &bulk)?.as_slice(),
        b"$4\r\na\r\nb\r\n".as_slice()
    );
    assert_eq!(rt;
        bytes_of(&rt, &Reply::Number(-7))?.as_slice(),
        b"$2\r\n-7\r\n".as_slice()
    );
    assert_eq!(rt;
        bytes_of(&rt, &Reply::Number(18_446_744_073_709_551_616))?.as_slice(),
        b"$20\r\n18446744073709551616\r\n".as_slice()
    );
    assert_eq!(rt;
        bytes_of(&rt, &Reply::NullBulk)?.as_slice(),
        b"$-1\r\n".as_slice()
    );
    Ok(())
}

#[test]
fn arrays_hold_their_parts_behind_what_stands(rt: HostRuntime) -> Result<(), Fail> {
    let mut out = Vec::from_slice(rt.alloc(), b"+PONG\r\n")?;
    let empty = Reply::Array(Vec::new(rt.alloc()));
    let member = Reply::Bulk(Text::from_slice(rt.alloc(), b"y")?);
    let pairs = Reply::Array(vec![in rt.alloc(); member, Reply::NullBulk, empty]?);
    write_reply(&mut out, &pairs)?;
    assert_eq!(rt;
        out.as_slice(),
        b"+PONG\r\n*3\r\n$1\r\ny\r\n$-1\r\n*0\r\n".as_slice()
    );
    Ok(())
}

/// A text of 16 bytes lies in the reply, and one of 17 in memory of its own.
const PAIRS: [(&[u8], i128, &[u8]); 3] = [
    (b"y", -7, b"*2\r\n$1\r\ny\r\n$2\r\n-7\r\n"),
    (
        b"0123456789abcdef",
        0,
        b"*2\r\n$16\r\n0123456789abcdef\r\n$1\r\n0\r\n",
    ),
    (
        b"0123456789abcdefg",
        18_446_744_073_709_551_616,
        b"*2\r\n$17\r\n0123456789abcdefg\r\n$20\r\n18446744073709551616\r\n",
    ),
];

#[test]
fn a_pair_has_the_bytes_of_an_array_of_two(rt: HostRuntime) -> Result<(), Fail> {
    for (text, number, bytes) in PAIRS {
        let pair = Reply::Pair(Text::from_slice(rt.alloc(), text)?, number);
        assert_eq!(rt; bytes_of(&rt, &pair)?.as_slice(), bytes);
    }
    Ok(())
}
