//! Texts in chunks, against the operations that were written.

use super::op_of;
use crate::texts::Texts;
use std::alloc::Global;
use std::test::Fail;
use zq_delta::write_op;
use zq_dots::Op;

/// So many operations with a member of so many bytes come, and then so many of the oldest go.
#[derive(Clone, Copy)]
struct Row {
    len: usize,
    come: usize,
    go: usize,
    /// How many stand then, and how many bytes they are written in.
    stand: usize,
    bytes: usize,
}

fn row_of(len: usize, come: usize, go: usize, stand: usize, bytes: usize) -> Row {
    Row {
        len,
        come,
        go,
        stand,
        bytes,
    }
}

/// An operation is written behind the others. Where memory is refused nothing has changed, and it
/// is written once there is some.
fn write(alloc: Global, texts: &mut Texts, ops: &[Op], gone: usize, op: &Op) -> Result<(), Fail> {
    if texts.push(op).is_err() {
        if !are_those(alloc, texts, ops, gone)? {
            return Err(Fail::from("a change"));
        }
        texts.push(op)?;
    }
    Ok(())
}

/// Whether the texts that stand are those of the operations behind so many.
fn are_those(alloc: Global, texts: &Texts, ops: &[Op], gone: usize) -> Result<bool, Fail> {
    let mut number = 0;
    let mut bytes = 0usize;
    for op in ops.iter().skip(gone) {
        if number >= texts.len() {
            return Ok(false);
        }
        let mut text = Vec::new(alloc);
        texts.copy_to(number, &mut text)?;
        if text.as_slice() != write_op(alloc, op)?.as_slice() {
            return Ok(false);
        }
        if texts.len_of(number) != text.len() {
            return Ok(false);
        }
        bytes = bytes.saturating_add(text.len());
        number += 1;
    }
    Ok(number == texts.len() && bytes == texts.bytes())
}

/// A chunk has room for 15 members of 4,096 bytes. Their operations are written in 4,120 bytes, the
/// first one of all in nine fewer.
#[test]
fn texts_stand_in_chunks(rt: HostRuntime) -> Result<(), Fail> {
    let alloc = rt.alloc();
    let rows = [
        // One chunk, a second one, and the first one goes.
        row_of(4_096, 15, 0, 15, 61_791),
        row_of(4_096, 1, 14, 2, 8_240),
        row_of(4_096, 0, 1, 1, 4_120),
        // A text that is longer than a chunk, and short ones behind it.
        row_of(100_000, 1, 0, 2, 104_144),
        row_of(1, 3, 1, 4, 100_099),
        row_of(1, 0, 1, 3, 75),
        // None is left, and one more goes.
        row_of(1, 0, 4, 0, 0),
        // The longest that fits into a chunk, and one that does not.
        row_of(64_935, 1, 0, 1, 64_959),
        row_of(64_936, 2, 1, 2, 129_920),
        row_of(1, 2_000, 3, 1_999, 49_975),
    ];
    let mut texts = Texts::new(alloc);
    let mut ops = Vec::new(alloc);
    let mut gone = 0usize;
    for row in &rows {
        for _come in 0..row.come {
            let op = op_of(alloc, 0, ops.len() as u64 + 1, row.len)?;
            write(alloc, &mut texts, &ops, gone, &op)?;
            ops.push(op)?;
        }
        for _go in 0..row.go {
            texts.drop_oldest();
            gone = gone.saturating_add(1).min(ops.len());
        }
        let is_right = texts.len() == row.stand && texts.bytes() == row.bytes;
        assert!(rt;
            is_right,
            "{} texts of {} bytes",
            texts.len(),
            texts.bytes()
        );
        assert!(rt; are_those(alloc, &texts, &ops, gone)?);
    }
    Ok(())
}
