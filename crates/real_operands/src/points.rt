//! Points of the user's space and of the device's (sections 4.3 and 4.4 of the language manual).
ghost use Rattle.std.specs.Prelude.{◌≡◌, ◌<◌, ◌^◌};
ghost use Rattle.real_operands.specs.Points as spec;

use crate::reals::{defined, real_at};
use ps_fixed::{add, apply, apply_delta};
use ps_objects::{ErrorName, Objects, Real};
use ps_shapes::{DevicePoint, Matrix};

/// The greatest distance of a coordinate from 0, in counts of 2^-24 pixel.
const FARTHEST: i64 = 70_368_744_177_664;

/// The point of the device, in pixels: limitcheck where a coordinate is more than 2^22 pixels from 0.
pub fn device_point(x: Real, y: Real) -> Result<DevicePoint, ErrorName>
    ensures { result ≡ spec.device_point x y }
{
    if -FARTHEST <= x.count && x.count <= FARTHEST && -FARTHEST <= y.count && y.count <= FARTHEST {
        Ok(DevicePoint { x, y })
    } else {
        Err(ErrorName::LimitCheck)
    }
}

/// The point (`x`, `y`) of the user's space on the device: undefinedresult, limitcheck.
pub fn placed(matrix: &Matrix, x: Real, y: Real) -> Result<DevicePoint, ErrorName>
    ensures { result ≡ spec.placed matrix.now x y }
{
    let image = defined(apply(matrix, x, y))?;
    device_point(image.0, image.1)
}

/// A point of the device moved by a distance of the user's space: undefinedresult, limitcheck.
pub fn moved(matrix: &Matrix, from: DevicePoint, x: Real, y: Real) -> Result<DevicePoint, ErrorName>
    ensures { result ≡ spec.moved matrix.now from x y }
{
    let (right, up) = defined(apply_delta(matrix, x, y))?;
    let x = defined(add(from.x, right))?;
    let y = defined(add(from.y, up))?;
    device_point(x, y)
}

/// The two numbers that are `depth` below the newest operand and one deeper, as (x, y): stackunderflow, typecheck.
pub fn point_at(operands: &Objects, depth: usize) -> Result<(Real, Real), ErrorName>
    requires { depth < 2 ^ 32 }
    ensures { result ≡ spec.point_at depth operands.now }
{
    let y = real_at(operands, depth)?;
    let x = real_at(operands, depth + 1)?;
    Ok((x, y))
}
