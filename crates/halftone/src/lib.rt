//! Which pixels of a gray are black: by a table of thresholds (section 6.4 of the language manual, halftones), or by a
//! start matrix, which is the project's own.
#![tactic(auto)]

ghost use Rattle.std.specs.Prelude.{◌+◌, ◌%◌, ◌≡◌, ◌*◌, ◌<◌, ◌≤◌, length};
ghost use Rattle.halftone.specs.Black.{is_black, start_level, start_part, threshold};

/// Whether the pixel in column `x` of row `y` is black under a gray of `gray` counts of 2^-24, where 0 is black and
/// 2^24 is white. A `width` of 0 stands for no thresholds: then the start matrix of 8 by 8 levels decides.
pub fn black(x: u32, y: u32, gray: i64, width: u32, height: u32, thresholds: &[u8]) -> bool
    requires size { 0 < width → length thresholds.now ≡ width * height }
    requires rows { 0 < width → 0 < height }
    ensures { result ≡ is_black x y gray width height thresholds.now }
{
    if width == 0 {
        i128::from(gray) * 64 <= i128::from(start_level(x, y)) * 16777216
    } else {
        let least = threshold_at(x, y, width, height, thresholds);
        i128::from(gray) * 255 < i128::from(least) * 16777216
    }
}

/// The level of the start matrix.
fn start_level(x: u32, y: u32) -> u32
    ensures value { result ≡ start_level x y }
    ensures small { result ≤ 63 }
{
    16 * start_part(x, y) + 4 * start_part(x / 2, y / 2) + start_part(x / 4, y / 4)
}

/// What the lowest bits of `x` and `y` give.
fn start_part(x: u32, y: u32) -> u32
    ensures value { result ≡ start_part x y }
    ensures small { result ≤ 3 }
{
    2 * ((x % 2 + y % 2) % 2) + y % 2
}

fn threshold_at(x: u32, y: u32, width: u32, height: u32, thresholds: &[u8]) -> u8
    requires size { length thresholds.now ≡ width * height }
    requires width { 0 < width }
    requires height { 0 < height }
    ensures { result ≡ threshold x y width height thresholds.now }
{
    let at = (y % height) as usize * width as usize + (x % width) as usize;
    thresholds[at].max(1)
}

#[cfg(test)]
mod tests {
    use super::*;
    use std::test::Fail;

    // The levels of the start matrix, from the top row.
    const LEVELS: [[i64; 8]; 8] = [
        [0, 32, 8, 40, 2, 34, 10, 42],
        [48, 16, 56, 24, 50, 18, 58, 26],
        [12, 44, 4, 36, 14, 46, 6, 38],
        [60, 28, 52, 20, 62, 30, 54, 22],
        [3, 35, 11, 43, 1, 33, 9, 41],
        [51, 19, 59, 27, 49, 17, 57, 25],
        [15, 47, 7, 39, 13, 45, 5, 37],
        [63, 31, 55, 23, 61, 29, 53, 21],
    ];

    #[test]
    fn start_matrix_and_thresholds(rt: HostRuntime) -> Result<(), Fail> {
        for y in 0..8u32 {
            for x in 0..8u32 {
                let level = LEVELS[y as usize][x as usize];
                let here = black(x, y + 8, (level % 64) * 262144, 0, 0, [].as_slice());
                let lighter = black(x + 16, y, (level % 64) * 262144 + 1, 0, 0, [].as_slice());
                assert!(rt; here && !lighter, "at {x} {y}");
            }
        }
        let table = [0, 128, 255].as_slice();
        assert!(rt; black(3, 0, 65793, 3, 1, table) && !black(3, 0, 65794, 3, 1, table));
        assert!(rt; black(2, 9, 16777215, 3, 1, table) && !black(2, 9, 16777216, 3, 1, table));
        assert!(rt; black(9, 1, 8421504, 1, 3, table) && !black(1, 9, 8421505, 1, 3, table));
        Ok(())
    }
}
