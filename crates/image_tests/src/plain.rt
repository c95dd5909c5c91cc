//! Pairs in order as a plain list, which the tests compare with.

/// Scores and members, by score and then by the members' bytes.
pub type Plain = Vec<(i128, Vec<u8>)>;

/// How many pairs go before this one.
pub fn place_of(plain: &Plain, score: i128, member: &[u8]) -> usize {
    plain.partition_point(|pair| (pair.0, pair.1.as_slice()) < (score, member))
}

/// Whether the pair at a place is this one.
pub fn is_at(plain: &Plain, place: usize, score: i128, member: &[u8]) -> bool {
    match plain.get(place) {
        Some(pair) => pair.0 == score && pair.1.as_slice() == member,
        None => false,
    }
}

/// Puts a pair in at a place: whether there is memory.
pub fn put_at(plain: &mut Plain, place: usize, score: i128, member: &[u8]) -> bool {
    if place > plain.len() {
        return false;
    }
    match member.to_vec(*plain.allocator()) {
        Ok(member) => plain.insert(place, (score, member)).is_ok(),
        Err(_) => false,
    }
}

/// Takes the pair at a place out.
pub fn take_at(plain: &mut Plain, place: usize) {
    if place < plain.len() {
        plain.remove(place);
    }
}

/// Whether these are all pairs, in order.
pub fn are_all(plain: &Plain, pairs: &[(i128, &[u8])]) -> bool {
    for (place, pair) in pairs.iter().enumerate() {
        if !is_at(plain, place, pair.0, pair.1) {
            return false;
        }
    }
    pairs.len() == plain.len()
}

/// Where a member stands, where each has one score.
pub fn find(plain: &Plain, member: &[u8]) -> Option<usize> {
    for (place, pair) in plain.iter().enumerate() {
        if pair.1.as_slice() == member {
            return Some(place);
        }
    }
    None
}

/// Whether a member has this score, or none.
pub fn has_score(plain: &Plain, member: &[u8], score: Option<i128>) -> bool {
    match (find(plain, member), score) {
        (Some(place), Some(score)) => is_at(plain, place, score, member),
        (None, None) => true,
        _ => false,
    }
}
