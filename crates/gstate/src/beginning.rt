//! What `initgraphics` sets (section 8.2 of the language manual).
#![tactic(auto)]

ghost use Rattle.std.specs.Prelude.{◌≡◌};
ghost use Rattle.ps_meaning.specs.Start.{whole_real, empty_dash_object};
ghost use Rattle.ps_operator.specs.Owes.{DoesAlone};
ghost use Rattle.gstate.specs.Beginning as spec;

use ps_kinds::{
    Access, Cell, Colour, Component, GState, Interval, Kind, Lengths, LineCap, LineJoin, LineWidth,
    Matrix, MiterLimit, Object, Real, Refusal, Space, State,
};
use ps_start::default_matrix;
use std::alloc::Global;

/// A whole number as a real.
fn whole(n: u32) -> Real
    ensures { result ≡ whole_real n }
{
    Real {
        count: n as i64 * 16_777_216,
    }
}

/// The empty array that `currentdash` gives at first.
fn empty_dash() -> Object
    ensures { result ≡ empty_dash_object }
{
    Object {
        kind: Kind::Array {
            interval: Interval {
                cell: Cell {
                    section: 0,
                    count: 10,
                    space: Space::Local,
                },
                start: 0,
                len: 0,
            },
            packed: false,
        },
        exec: false,
        access: Access::Unlimited,
    }
}

#[tactic(auto, unfolding(crate::specs::Beginning::with_new_page))]
fn begin_page(graphics: &mut GState, ctm: Matrix)
    ensures { graphics.new ≡ spec.with_new_page graphics.old ctm }
{
    graphics.ctm = ctm;
    graphics.path.clear();
    graphics.clips.clear();
    graphics.colour = Colour::Gray(Component::new(whole(0)));
}

#[tactic(auto, unfolding(crate::specs::Beginning::with_new_lines))]
fn begin_lines(graphics: &mut GState, alloc: Global)
    ensures { graphics.new ≡ spec.with_new_lines graphics.old }
{
    graphics.width = LineWidth::new(whole(1));
    graphics.cap = LineCap::Butt;
    graphics.join = LineJoin::Miter;
    graphics.miter = MiterLimit::new(whole(10));
    graphics.dash = empty_dash();
    graphics.offset = whole(0);
    graphics.lengths = Lengths::solid(alloc);
}

/// Sets the values of the start on a page of the current size, at so many dots per inch, as `initgraphics` does.
pub fn begin(graphics: &mut GState, dpi: u32, alloc: Global)
    ensures { graphics.new ≡ spec.begun dpi graphics.old }
{
    let matrix = default_matrix(dpi, graphics.high.pixels());
    begin_page(graphics, matrix);
    begin_lines(graphics, alloc);
}

pub(crate) fn initgraphics(state: &mut State) -> Result<(), Refusal>
    ensures { DoesAlone spec.initgraphics state.old result state.new }
{
    let dpi = state.settings.dpi;
    let alloc = state.regs.operands.alloc();
    begin(&mut state.regs.state, dpi, alloc);
    Ok(())
}
