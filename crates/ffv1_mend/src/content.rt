//! Bytes of one version, or bytes that were put together.
ghost use Rattle.std.specs.Prelude.{◌≡◌};
ghost use Rattle.ffv1_mend.specs.Content.{content_bytes};

/// The bytes of a stretch, or of a version of it.
#[derive(Drop)]
pub(crate) enum Content<'a> {
    /// Those of a version, as it was lent.
    Version(&'a [u8]),
    /// Those that were put together.
    Made(Vec<u8>),
}

impl Content<'_> {
    /// The bytes.
    pub(crate) fn bytes(&self) -> &[u8]
        ensures { result.now ≡ content_bytes self.now }
    {
        match self {
            Content::Version(bytes) => bytes,
            Content::Made(bytes) => bytes.as_slice(),
        }
    }
}
