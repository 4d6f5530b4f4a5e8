//! Colours in the device spaces (section 6.2 of the language manual).
ghost use Rattle.std.specs.Prelude.{◌≡◌, pos, ◌≤ℤ◌};
ghost use Rattle.colour_ops.specs.Colours as spec;

use ps_kinds::{Colour, Component, ONE, Real};

/// The component 0.
pub(crate) fn none() -> Component
    ensures { result ≡ spec.none }
{
    Component::new(Real { count: 0 })
}

/// The component 1.
pub(crate) fn full() -> Component
    ensures { result ≡ spec.full }
{
    Component::new(Real { count: ONE })
}

/// A number as a component: what is below 0 is 0, and what is above 1 is 1.
pub(crate) fn cut(real: Real) -> Component
    ensures { result ≡ spec.cut real }
{
    if real.count < 0 {
        none()
    } else if real.count > ONE {
        full()
    } else {
        Component::new(real)
    }
}

/// 1 - min(1, n), for so many counts.
fn left_of_one(count: i64) -> Component
    requires { pos 0 ≤ℤ count }
    ensures { result ≡ spec.left_of_one count }
{
    if count < ONE {
        Component::new(Real { count: ONE - count })
    } else {
        none()
    }
}

/// The count of a component.
fn count_of(component: Component) -> i64
    ensures value { result ≡ component.count }
    ensures low { pos 0 ≤ℤ result }
    ensures high { result ≤ℤ pos 16777216 }
{
    component.real().count
}

/// 30r + 59g, over counts.
fn warm(red: Component, green: Component) -> i64
    ensures value { result ≡ spec.warm red green }
    ensures low { pos 0 ≤ℤ result }
    ensures high { result ≤ℤ pos 1493172224 }
{
    30 * count_of(red) + 59 * count_of(green)
}

/// 30r + 59g + 11b, over counts.
fn weights(red: Component, green: Component, blue: Component) -> i64
    ensures value { result ≡ spec.weights red green blue }
    ensures low { pos 0 ≤ℤ result }
    ensures high { result ≤ℤ pos 1677721600 }
{
    warm(red, green) + 11 * count_of(blue)
}

/// A hundredth of a count, to the nearest.
fn hundredth(count: i64) -> i64
    requires low { pos 0 ≤ℤ count }
    requires high { count ≤ℤ pos 1677721600 }
    ensures value { result ≡ spec.hundredth count }
    ensures low { pos 0 ≤ℤ result }
    ensures high { result ≤ℤ pos 16777216 }
{
    (count + 50) / 100
}

/// How light red, green and blue are together.
fn weighted(red: Component, green: Component, blue: Component) -> Component
    ensures { result ≡ spec.weighted red green blue }
{
    Component::new(Real {
        count: hundredth(weights(red, green, blue)),
    })
}

/// Without an ink, and without black.
fn without(ink: Component, black: Component) -> Component
    ensures { result ≡ spec.without ink black }
{
    left_of_one(count_of(ink) + count_of(black))
}

/// How light a colour is, from 0, black, to 1, white.
pub fn gray_of(colour: Colour) -> Component
    ensures { result ≡ spec.gray_of colour }
{
    match colour {
        Colour::Gray(gray) => gray,
        Colour::Rgb(red, green, blue) => weighted(red, green, blue),
        Colour::Cmyk(cyan, magenta, yellow, black) => {
            without(weighted(cyan, magenta, yellow), black)
        }
    }
}

/// Red, green and blue of a colour.
pub(crate) fn rgb_of(colour: Colour) -> (Component, Component, Component)
    ensures { result ≡ spec.rgb_of colour }
{
    match colour {
        Colour::Gray(gray) => (gray, gray, gray),
        Colour::Rgb(red, green, blue) => (red, green, blue),
        Colour::Cmyk(cyan, magenta, yellow, black) => (
            without(cyan, black),
            without(magenta, black),
            without(yellow, black),
        ),
    }
}

/// 1 less a component.
fn rest(component: Component) -> Component
    ensures { result ≡ spec.rest component }
{
    left_of_one(count_of(component))
}

/// Cyan, magenta, yellow and black of a colour.
pub(crate) fn cmyk_of(colour: Colour) -> (Component, Component, Component, Component)
    ensures { result ≡ spec.cmyk_of colour }
{
    match colour {
        Colour::Gray(gray) => (none(), none(), none(), rest(gray)),
        Colour::Rgb(red, green, blue) => (rest(red), rest(green), rest(blue), none()),
        Colour::Cmyk(cyan, magenta, yellow, black) => (cyan, magenta, yellow, black),
    }
}
