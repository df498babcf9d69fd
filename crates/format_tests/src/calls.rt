//! What tests have in common: segments of 1 MiB.
ghost use Rattle.std.specs.Prelude.{◌≡◌};

use byte_position::Geometry;

pub fn smallest() -> Geometry
    ensures { result ≡ 1048576 }
{
    match Geometry::new(1 << 20) {
        Some(geometry) => geometry,
        None => unreachable!(),
    }
}
