//! A file of three records, and what an independent model reads of it after damage.

/// The records of `one`, of `two`, and of the bytes 0, 254, 255,
/// behind 0, 1 and 2 that were synced.
pub const FILE: &str = "\
de09e4db7e9d0acffe01fe01fe01fe01fe01fe01fe01fe016f6e65fffe038e5fd549fe01a210fe01fe01fe01fe01fe01\
fe01fe010174776fff891105cb579a51c2fe01fe01fe01fe01fe01fe01fe0102fe01fe02fe03ff";

/// How many records are read of each length of it, from 0 on.
pub const CUT: &str = "\
0000000000000000000000000000111111111111111111111111111112222222222222222222222222222223";

/// How many records are read where a byte of it, from the first on, is 0, 1, 2, 3, 254, 255,
/// itself with its lowest bit turned, or with its highest; `x`: it has damage that no crash leaves.
pub const CHANGED: &str = "\
xxxxxxxx
xxxxxxxx
xxxxxxxx
xxxxxxxx
xxxxxxxx
xxxxxxxx
xxxxxxxx
xxxxxxxx
xxxx3xxx
x3xxxxxx
xxxx3xxx
x3xxxxxx
xxxx3xxx
x3xxxxxx
xxxx3xxx
x3xxxxxx
xxxx3xxx
x3xxxxxx
xxxx3xxx
x3xxxxxx
xxxx3xxx
x3xxxxxx
xxxx3xxx
x3xxxxxx
xxxxxxxx
xxxxxxxx
xxxxxxxx
xxxxx3xx
xxxx3xxx
xxx3xxxx
xxxxxxxx
xxxxxxxx
xxxxxxxx
xxxxxxxx
xxxx3xxx
x3xxxxxx
xxxxxxxx
xxxxxxxx
xxxx3xxx
x3xxxxxx
xxxx3xxx
x3xxxxxx
xxxx3xxx
x3xxxxxx
xxxx3xxx
x3xxxxxx
xxxx3xxx
x3xxxxxx
xxxx3xxx
x3xxxxxx
xxxx3xxx
x3xxxxxx
x3xxxxxx
xxxxxxxx
xxxxxxxx
xxxxxxxx
1xxxx3xx
2xxxxxxx
2xxxxxxx
2xxxxxxx
2xxxxxxx
2xxxxxxx
2xxxxxxx
2xxxxxxx
2xxxxxxx
2xxx3xxx
23xxxx2x
2xxx3xxx
23xxxx2x
2xxx3xxx
23xxxx2x
2xxx3xxx
23xxxx2x
2xxx3xxx
23xxxx2x
2xxx3xxx
23xxxx2x
2xxx3xxx
23xxxx2x
2x3xxxxx
2xxx3xxx
23xxxx2x
2xxx3xxx
2x3xxxxx
2xxx3xxx
2xx3xxxx
22222322";
