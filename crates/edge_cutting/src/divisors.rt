// Greatest common divisors.
ghost use Rattle.std.specs.Int.{IsGcd};
ghost use Rattle.edge_cutting.specs.Divisors.{IsCommonDivisor};

/// The greatest number that divides all three; 0 where all are 0.
pub fn common_divisor(x: u64, y: u64, z: u64) -> u64
    ensures { IsCommonDivisor x y z result }
{
    divisor(z, divisor(x, y))
}

/// The greatest common divisor of two numbers; of 0 and a number that number.
pub fn divisor(a: u64, b: u64) -> u64
    ensures { IsGcd a b result }
{
    let mut one = a;
    let mut other = b;
    while other != 0 {
        let rest = one % other;
        one = other;
        other = rest;
    }
    one
}
