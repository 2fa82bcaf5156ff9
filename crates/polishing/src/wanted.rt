// What a window's pass looks for.
ghost use Rattle.std.specs.Prelude.{◌≤◌};

// The mirror, how many rows a reading has, and the window.
#[derive(Clone, Copy)]
pub struct Wanted {
    pub mirror: usize,
    pub rows: usize,
    pub window: usize,
    ghost few: { rows ≤ 2048 },
}
