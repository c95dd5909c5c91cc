//! Entries as bytes, written by hand from the format's definition.

/// A name, what the entry says, and its bytes.
pub(crate) const ENTRIES: &str = "\
the first start | start 0 1 High 00000000000000000000000000000000 1 | 0101000100000000000000000000000000000000000000000000000001
the 258th start of site 5 | start 5 2 Low 000102030405060708090a0b0c0d0e0f 258 | 0101050201000102030405060708090a0b0c0d0e0f0000000000000102
a start of the last numbers | start 63 16 High ffffffffffffffffffffffffffffffff 18446744073709551615 | 01013f1000ffffffffffffffffffffffffffffffffffffffffffffffff
a Put of 3 in heap 0 of 2 | round 0/2:1 | 0201000000000000000b0b02000100000601710161
two batches, the second with a Drop of site 63 in heap 1 | round 0/2:1 1/2:1 | 0202000000000000000b0b0200010000060171016100000000000000090b020101023f017a00
two Puts of one site and one key | round 0/1:2 | 0201000000000000000f0b010002000006017101610c080162
that a heap without operations is whole | sealed 15/16 0 | 03100f00
that a heap with one operation is whole | sealed 0/2 1 | 03020001000000000000000001
nothing | rest | 04
a member of heap 0 of 2 | piece 7 258 1/3 0/2 | 0a000000000000000700000102000000000000000100000000000000030302000001000000000000000001000000000000000100000001710000000000000001000000016101000000000000000001000000000000000300
the last piece of a heap in which nothing was done | piece 0 0 0/0 0/1 | 0a0000000000000000000000000000000000000000000000000000000003010000000000000000000000";

/// A name, bytes, and why they are no entry.
pub(crate) const FAULTS: &str = "\
nothing |  | Short
no kind | 00 | Kind
no kind | 05 | Kind
a batch alone | 0b02000100000601710161 | Kind
no kind | ff | Kind
no format | 01 | Short
another format | 0100 | Format
a newer format | 0102000100000000000000000000000000000000000000000000000001 | Format
no site | 0101 | Short
a site too many | 010140 | Field(2)
no heap | 01010500 | Field(3)
a heap too many | 01010511 | Field(3)
no such rule | 0101050202 | Field(4)
a name of 15 bytes | 0101050201000102030405060708090a0b0c0d0e | Short
the number 0 | 0101050201000102030405060708090a0b0c0d0e0f0000000000000000 | Field(21)
a byte behind a start | 0101050201000102030405060708090a0b0c0d0e0f000000000000010200 | Rest
no number of batches | 02 | Short
no batch | 0200 | Field(1)
65 batches | 0241 | Field(1)
no length | 020100000000000000 | Short
a length above what follows | 0201000000000000000c0b02000100000601710161 | Short
a length past all bytes | 0201ffffffffffffffff0b02000100000601710161 | Short
an empty batch | 02010000000000000000 | Batch(2, Short)
a batch of another kind | 0201000000000000000b0a02000100000601710161 | Batch(2, Field(0))
a batch of heap 2 of 2 | 0201000000000000000b0b02020100000601710161 | Batch(2, Field(2))
a byte behind the batch in its length | 0201000000000000000c0b0200010000060171016100 | Batch(2, Rest)
a batch that its length cuts off | 0201000000000000000a0b02000100000601710161 | Batch(2, Short)
the second batch of another kind | 0202000000000000000b0b02000100000601710161000000000000000900020101023f017a00 | Batch(21, Field(0))
fewer batches than told | 0202000000000000000b0b02000100000601710161 | Short
more batches than told | 0201000000000000000b0b0200010000060171016100000000000000090b020101023f017a00 | Rest
no number of heaps | 03 | Short
no heap | 0300 | Field(1)
heap 2 of 2 | 030202 | Field(2)
65 entries | 03020041 | Field(3)
site 64 | 0302000140 | Field(4)
the counter 0 | 03020001000000000000000000 | Field(5)
a byte behind a vector | 0302000000 | Rest
a byte behind nothing | 0400 | Rest
a piece alone | 0a | Piece(Short)
a state of version 2 | 0a0000000000000000000000000000000000000000000000000000000002 | Piece(State(Version))
a byte behind a piece | 0a000000000000000000000000000000000000000000000000000000000301000000000000000000000000 | Piece(State(Rest))";
