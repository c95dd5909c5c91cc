//! Bytes that are no batch: a name, the bytes in hex, and the fault.

pub const FAULTS: &str = "\
no byte |  | Short
another kind | 0202000100000601710161 | Field(0)
the kind alone | 0b | Short
no heaps | 0b00 | Field(1)
17 heaps | 0b1100 | Field(1)
heap not below the number of heaps | 0b0202 | Field(2)
no operation | 0b020000 | Field(3)
4097 operations | 0b02008120 | Field(3)
4096 operations are declared | 0b02008020 | Short
a number that is longer than it need be | 0b02008100 | Field(3)
a number of nine groups | 0b0200808080808080808001 | Field(3)
act 3 | 0b02000103 | Field(4)
the first has the key of the one before | 0b0200010400060161 | Field(4)
the first has the site of the one before | 0b020001080601710161 | Field(4)
site 64 | 0b0200010040 | Field(5)
a site is written that is that of the one before | 0b02000202000171016102000171 | Field(11)
a key is written that is that of the one before | 0b0200020200017101610a01710161 | Field(11)
a difference of 0 | 0b02000112000100 | Field(7)
a difference that is longer than it need be | 0b0200011200018100 | Field(7)
sites of differences that do not rise | 0b020001220005010501 | Field(8)
site 64 of a difference | 0b020001120040 | Field(6)
the own site has a difference | 0b0200020200017101611e0001 | Field(12)
a number of differences that stands in the head | 0b020001f2000e | Field(6)
65 differences | 0b020001f20041 | Field(6)
the own counter is at its last value | 0b020001120000ffffffffffff3f | Field(7)
another's counter is past its last value | 0b02000112000180808080808040 | Field(7)
a site that has no further counter | 0b020002120000feffffffffff3f017101610e0161 | Field(18)
a score past the greatest | 0b02000100008180808080808020 | Field(6)
a key of 1048577 bytes | 0b0200010200818040 | Field(6)
a member that is short | 0b020001020001710261 | Short
a byte follows | 0b02000102000171016100 | Rest
";
