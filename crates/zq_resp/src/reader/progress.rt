//! How far a part of a request is.

/// What the bytes so far make.
#[derive(Drop)]
pub enum Progress<P, T> {
    /// Less than the whole.
    More(P),
    /// All of it.
    Whole(T),
}
