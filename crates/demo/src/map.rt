// A fringe map, in print: a row for each height, a byte for each point of it.
ghost use Rattle.std.specs.Prelude.{◌<◌};

// A row's bytes, and how many rows there are.
pub const WIDTH: usize = 41;

pub const HEIGHT: usize = 7;

// Dark in every other band round the middle, at (20,3). A character is twice as high as wide.
fn shade(x: usize, y: usize) -> u8
    requires { (x < 48) × (y < 48) }
{
    let dx = x.abs_diff(20);
    let dy = y.abs_diff(3);
    if (dx + 2 * dy) / 4 % 2 == 0 {
        b'#'
    } else {
        b'.'
    }
}

// The rows end to end.
pub fn draw(rows: &mut [u8]) {
    for (i, point) in rows.iter_mut().enumerate() {
        *point = shade(i % WIDTH, i / WIDTH % 48);
    }
}
