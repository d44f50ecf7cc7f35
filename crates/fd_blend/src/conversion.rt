ghost use Rattle.std.specs.Prelude.{◌≡◌};
ghost use Rattle.fd_blend.specs.Unorm.{unorm, IsNearestByte};

/// The byte for a value in units of 1/65025: clamped to the range from 0 to 1, and rounded to the nearest byte.
///
/// Direct3D 11.3 functional specification, section 3.2.3.6, FLOAT to UNORM.
pub fn unorm(value: i32) -> u8
    ensures value { result ≡ unorm value }
    ensures nearest { IsNearestByte value result }
{
    ((value.clamp(0, 65025) + 127) / 255) as u8
}
