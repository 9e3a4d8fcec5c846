// The root by itself, so that a host can hold it against its processor's.
ghost use Rattle.std.specs.Prelude.{◌≡◌};
ghost use Rattle.sphere.specs.Root.{root_of};

use sphere::root;

// The f32 nearest to the exact root, infinity for infinity; a zero for itself, and a NaN for a NaN or a number below zero.
pub fn families_root(x: f32) -> f32
    ensures { result ≡ root_of x }
{
    root::root(x)
}
