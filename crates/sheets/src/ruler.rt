ghost use Rattle.std.specs.Prelude.{◌≤◌};

// Measures lines against a width of 1 to 100 cells.
#[derive(Clone, Copy)]
pub struct Ruler {
    pub(crate) width: u32,
    // The cells of the line so far, or width + 1 once a line was too long: by a rule of the project a ruler keeps this one number.
    pub(crate) cells: u32,
    ghost some: { 1 ≤ width },
    ghost most: { width ≤ 100 },
}
