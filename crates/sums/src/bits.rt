// Floats and their bits.
ghost use Rattle.std.specs.Prelude.{◌≡◌, from_bits, to_bits};
ghost use Rattle.std.specs.Float.{binary32, binary64};

// The float of any pattern: `f32::from_bits` is not defined at a NaN's.
pub fn float_of(bits: u32) -> f32
    ensures { result ≡ from_bits binary32 bits }
{
    if 0x7f80_0000 < bits % 0x8000_0000 {
        return 0.0f32 / 0.0f32;
    }
    f32::from_bits(bits)
}

// `f32::to_bits` is not defined at a NaN; this is the pattern that the definition writes for it.
pub fn bits_of(x: f32) -> u32
    ensures { result ≡ to_bits binary32 x }
{
    if x != x {
        return 0x7fc0_0000;
    }
    f32::to_bits(x)
}

// The same of 64 bits.
pub fn double_bits_of(d: f64) -> u64
    ensures { result ≡ to_bits binary64 d }
{
    if d != d {
        return 0x7ff8_0000_0000_0000;
    }
    f64::to_bits(d)
}
