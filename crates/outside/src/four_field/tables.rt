// The tables of the field of four elements. 2 and 3 are the roots of X² + X + 1.
ghost use Rattle.std.specs.Prelude.{◌≡◌};
ghost use Rattle.outside.specs.four_field.FourElements.{entry};

pub const SIZE: u32 = 4;

pub const SUMS: [[u32; 4]; 4] = [[0, 1, 2, 3], [1, 0, 3, 2], [2, 3, 0, 1], [3, 2, 1, 0]];

pub const PRODUCTS: [[u32; 4]; 4] = [[0, 0, 0, 0], [0, 1, 2, 3], [0, 2, 3, 1], [0, 3, 1, 2]];

pub const INVERSES: [Option<u32>; 4] = [None, Some(1), Some(3), Some(2)];

// What stands in row a at b, and 0 outside the table.
pub fn look_up(table: &[[u32; 4]; 4], a: u32, b: u32) -> u32
    ensures { result ≡ entry table.now a b }
{
    table
        .get(a as usize)
        .and_then(|row| row.get(b as usize))
        .copied()
        .unwrap_or(0)
}
