//! The test vectors of RFC 4231.

use zq_wire::{is_same_tag, mac};

/// A key, the parts of a message, and its tag.
#[derive(Drop)]
struct Vector<'a> {
    key: &'a [u8],
    parts: &'a [&'a [u8]],
    tag: &'a [u8; 32],
}

#[test]
fn tags_are_those_of_the_standard(rt: HostRuntime) {
    let vectors = [
        Vector {
            key: &[0x0b; 20],
            parts: &[b"Hi There"],
            tag: b"\xb0\x34\x4c\x61\xd8\xdb\x38\x53\x5c\xa8\xaf\xce\xaf\x0b\xf1\x2b\x88\x1d\xc2\x00\xc9\x83\x3d\xa7\x26\xe9\x37\x6c\x2e\x32\xcf\xf7",
        },
        Vector {
            key: b"Jefe",
            parts: &[b"what do ya want ", b"", b"for nothing?"],
            tag: b"\x5b\xdc\xc1\x46\xbf\x60\x75\x4e\x6a\x04\x24\x26\x08\x95\x75\xc7\x5a\x00\x3f\x08\x9d\x27\x39\x83\x9d\xec\x58\xb9\x64\xec\x38\x43",
        },
        Vector {
            key: &[0xaa; 20],
            parts: &[&[0xdd; 20], &[0xdd; 30]],
            tag: b"\x77\x3e\xa9\x1e\x36\x80\x0e\x46\x85\x4d\xb8\xeb\xd0\x91\x81\xa7\x29\x59\x09\x8b\x3e\xf8\xc1\x22\xd9\x63\x55\x14\xce\xd5\x65\xfe",
        },
        Vector {
            key: &[0xaa; 131],
            parts: &[b"Test Using Larger Than Block-Size Key - Hash Key First"],
            tag: b"\x60\xe4\x31\x59\x1e\xe0\xb6\x7f\x0d\x8a\x26\xaa\xcb\xf5\xb7\x7f\x8e\x0b\xc6\x21\x37\x28\xc5\x14\x05\x46\x04\x0f\x0e\xe3\x7f\x54",
        },
        Vector {
            key: &[0xaa; 131],
            parts: &[
                b"This is a test using a larger than block-size key and a larger than block-size data. The key needs to be hashed before being used by the HMAC algorithm.",
            ],
            tag: b"\x9b\x09\xff\xa7\x1b\x94\x2f\xcb\x27\x63\x5f\xbc\xd5\xb0\xe9\x44\xbf\xdc\x63\x64\x4f\x07\x13\x93\x8a\x7f\x51\x53\x5c\x3a\x35\xe2",
        },
    ];
    for vector in &vectors {
        let tag = mac(vector.key, vector.parts);
        assert!(rt; is_same_tag(&tag, vector.tag));
        assert_eq!(rt; tag.as_slice(), vector.tag.as_slice());
    }
}

#[test]
fn a_difference_is_seen_in_each_byte(rt: HostRuntime) {
    for index in 0..32 {
        let mut tag = [7; 32];
        tag[index] = 6;
        assert!(rt; !is_same_tag(&tag, &[7; 32]) && is_same_tag(&tag, &tag));
    }
}
