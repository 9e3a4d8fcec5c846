// The square root of an f32, rounded to the nearest: by whole numbers, since the language has no root of floats.
ghost use Rattle.std.specs.Prelude.{◌≡◌, ◌*◌, ◌^◌, ◌≤◌, ◌<◌};
ghost use Rattle.sphere.specs.Root.{whole_root as whole_root_lem, root_units as root_units_lem, root_of};

// The whole part of the root of w, between two bounds that close in on it.
fn whole_root(w: u64) -> u64
    requires { (2 ^ 48 ≤ w) × (w < 2 ^ 50) }
    ensures { result ≡ whole_root_lem 25 w }
{
    let mut low = 0x100_0000u64;
    let mut high = 0x200_0000u64;
    while low + 1 < high {
        let middle = (low + high) / 2;
        if middle * middle <= w {
            low = middle;
        } else {
            high = middle;
        }
    }
    low
}

// The root of digits · 2^up of the smallest positive values.
fn root_units(digits: u32, up: u32) -> f32
    requires { (0 < digits) × ((digits < 2 ^ 24) × (up < 254)) }
    ensures { result ≡ root_units_lem (digits * 2 ^ up) }
{
    let dropped = (32 - u32::leading_zeros(digits) + up) / 2;
    let scaled = (digits as u64) << (up + 49 - 2 * dropped);
    let kept = (whole_root(scaled) + 1) / 2;
    f32::from_bits((dropped + 51) * 0x80_0000 + kept as u32)
}

// A zero is its own root, infinity and a NaN too; a number below zero has none.
pub fn root(x: f32) -> f32
    ensures { result ≡ root_of x }
{
    if x < 0.0f32 {
        return 0.0f32 / 0.0f32;
    }
    if 0.0f32 < x {
        let bits = f32::to_bits(x);
        if 0x7f80_0000 <= bits {
            return x;
        }
        if bits < 0x80_0000 {
            return root_units(bits, 0);
        }
        return root_units(bits % 0x80_0000 + 0x80_0000, bits / 0x80_0000 - 1);
    }
    x
}
