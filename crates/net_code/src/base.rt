//! Where instances stand.

/// Where the nets and memory words of an instance begin in the flat design: the numbers of its first net and of its first memory word
/// (this project's profile).
#[derive(Clone, Copy)]
pub struct Base {
    pub net: u32,
    pub word: u32,
}
