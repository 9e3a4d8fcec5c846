// The root by itself, by the function of that name in `exports`.
ghost use Rattle.std.specs.Prelude.{◌≡◌};
ghost use Rattle.sphere.specs.Root.{root_of};

// The f32 nearest to the exact root, infinity for infinity; a zero for itself, and a NaN for a NaN or a number below zero.
#[unsafe(no_mangle)]
pub extern "C" fn families_root(x: f32) -> f32
    ensures { result ≡ root_of x }
{
    exports::root::families_root(x)
}
