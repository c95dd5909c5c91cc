//! The fields of frames. The plain ones are bytes, whole numbers with their highest byte first, and
//! runs of bytes. On these stand the ones that frames of operations, of states and of links share:
//! numbers in a range, a heap, a rule, a score, a key or a member, and version vectors.
//!
//! A reader takes its field from the front of the bytes. A plain one gives the value with the bytes
//! after it, or `None` where bytes of the field are missing. The others answer a fault: that of the
//! first field, from the left, that is missing or out of its range; `whole` is the number of bytes
//! from the frame's first one on, so that a fault can say at which place its field begins. After a
//! fault the bytes that are left are of no use. A writer appends, and where memory is refused what
//! stood there stands. What is written is read again, and what is read is what was written: the
//! laws say both.
#![tactic(auto)]

mod dense;
mod fault;
mod field_laws;
mod heap_no;
mod limit;
mod part_laws;
mod range;
mod read;
mod rule;
mod score;
mod sparse;
mod text;
mod wide;
mod write;

pub use dense::{DENSE_SITES, read_dense};
pub use fault::PartFault;
pub use field_laws::{byte_again, bytes_again, number_again, signed_again};
pub use heap_no::{HeapNo, read_heap};
pub use part_laws::{heap_again, rule_again, score_again, text_again, vector_again};
pub use range::{read_byte_in, read_number_in, read_site};
pub use read::{read_byte, read_bytes, read_i64, read_u32, read_u64};
pub use rule::{read_rule, rule_byte};
pub use score::{read_score, write_score};
pub use sparse::{read_sparse, sparse_len, write_sparse};
pub use text::{read_text, write_text};
pub use wide::{read_i128, wide_again, write_i128};
pub use write::{write_byte, write_bytes, write_i64, write_u32, write_u64};
