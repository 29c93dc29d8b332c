//! What is hosted.

/// A handler, and the names of the kinds that it knows.
#[derive(Clone, Copy)]
pub struct Hosted<'a, H> {
    pub handler: H,
    pub kinds: &'a [&'a str],
}
