// What the roundings give, by their formulas.
use rounding::{High, Low, Nearest, Rounding};

// Two numbers, their weights and what lies between, to the nearest, low and high: worked by hand from the formulas, a half
// goes up on both sides of 0.
const BETWEEN: [([i8; 2], [u8; 2], [i64; 3]); 8] = [
    ([0, 10], [1, 2], [3, 0, 10]),
    ([10, 0], [1, 2], [7, 10, 0]),
    ([0, 1], [1, 1], [1, 0, 1]),
    ([0, -1], [1, 1], [0, 0, -1]),
    ([-7, -4], [1, 1], [-5, -7, -4]),
    ([4, 9], [0, 3], [4, 4, 4]),
    ([4, 9], [3, 0], [9, 9, 9]),
    ([4, 9], [0, 0], [4, 4, 4]),
];

fn between<R: Rounding>(rounding: &R, [u, v]: [i8; 2], [a, b]: [u8; 2]) -> i64 {
    rounding.between(u as i64, v as i64, a as i64, b as i64)
}

#[test]
fn a_value_is_placed_between_two(rt: HostRuntime) {
    for (numbers, weights, wanted) in &BETWEEN {
        let [u, v] = *numbers;
        let [a, b] = *weights;
        let found = [
            between(&Nearest, *numbers, *weights),
            between(&Low, *numbers, *weights),
            between(&High, *numbers, *weights),
        ];
        assert!(rt; found == *wanted, "{u} {v} {a} {b}");
    }
}

// A fine coordinate, of which 256 make a grid step, and its grid step, to the nearest, low and high.
const SETTLED: [(i16, [i32; 3]); 10] = [
    (0, [0, 0, 0]),
    (127, [0, 0, 1]),
    (128, [1, 0, 1]),
    (256, [1, 1, 1]),
    (257, [1, 1, 2]),
    (-1, [0, -1, 0]),
    (-128, [0, -1, 0]),
    (-129, [-1, -1, 0]),
    (-256, [-1, -1, -1]),
    (-257, [-1, -2, -1]),
];

fn settled<R: Rounding>(rounding: &R, fine: i16) -> i32 {
    rounding.settle(fine as i64)
}

#[test]
fn a_fine_coordinate_is_settled(rt: HostRuntime) {
    for (fine, wanted) in &SETTLED {
        let found = [
            settled(&Nearest, *fine),
            settled(&Low, *fine),
            settled(&High, *fine),
        ];
        assert!(rt; found == *wanted, "{fine}");
    }
}
