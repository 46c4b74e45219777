ghost use Rattle.std.specs.Prelude.{◌≤◌};
ghost use Rattle.random_streams.specs.RandomStream.{million};

/// The rates of the six kinds of error, in parts per million, at most a million each.
#[derive(Clone, Copy, Debug)]
pub struct Rates {
    /// At each h-copy, another letter is written.
    pub copy: u32,
    /// At a divide, one letter is inserted.
    pub insert: u32,
    /// At a divide, one letter is deleted.
    pub delete: u32,
    /// At a divide, each letter is replaced.
    pub site_point: u32,
    /// At a divide, a letter is inserted before each letter.
    pub site_insert: u32,
    /// At a divide, each letter is deleted.
    pub site_delete: u32,
    ghost copy_fits: { copy ≤ million },
    ghost insert_fits: { insert ≤ million },
    ghost delete_fits: { delete ≤ million },
    ghost site_point_fits: { site_point ≤ million },
    ghost site_insert_fits: { site_insert ≤ million },
    ghost site_delete_fits: { site_delete ≤ million },
}
