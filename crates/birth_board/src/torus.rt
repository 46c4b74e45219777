// The torus of cells.
ghost use Rattle.std.specs.Prelude.{◌≤◌};

/// A grid of cells whose opposite sides are joined.
#[derive(Clone, Copy, Debug, PartialEq, Eq)]
pub struct Torus {
    pub width: u32,
    pub height: u32,
    ghost has_columns: { 1 ≤ width },
    ghost has_rows: { 1 ≤ height },
    ghost few_columns: { width ≤ 256 },
    ghost few_rows: { height ≤ 256 },
}
