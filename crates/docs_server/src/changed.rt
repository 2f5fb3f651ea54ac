//! What a reload has changed.

/// What a reload has changed beside pages.
#[derive(Clone, Copy)]
pub struct Changed {
    pub readers: bool,
    pub media: bool,
}

impl Changed {
    pub const NOTHING: Changed = Changed {
        readers: false,
        media: false,
    };

    pub fn is_any(self) -> bool {
        self.readers || self.media
    }
}
