//! Registers and paper as text, as the format's description has them.
use crate::papers::{push_paper_line, push_rand_line};
use copy_lists::{NoMemory, Text};
use dump_lines::push_registers;
use ps_kinds::{
    Access, Kind, Layer, LineCap, LineWidth, Object, Paper, Real, Settings, Span, Value,
};
use ps_start::start_registers;

const SETTINGS: Settings = Settings {
    dpi: 72,
    width: 612,
    height: 792,
    keep: false,
};

#[test]
fn registers_are_told(rt: HostRuntime) -> Result<(), NoMemory> {
    let alloc = rt.alloc();
    let start = start_registers(alloc, &SETTINGS)?;
    let mut regs = start.copy()?;
    for n in [7, 8] {
        regs.operands.push(Object {
            kind: Kind::Integer(n),
            exec: false,
            access: Access::Unlimited,
        })?;
    }
    regs.states.push(Layer {
        state: start.state.copy()?,
        base: true,
    })?;
    regs.state.width = LineWidth::new(Real { count: 33_554_432 });
    regs.state.cap = LineCap::Round;
    regs.packing = true;
    let mut text = Text::new(alloc);
    push_registers(alloc, &mut text, &regs, &start.state)?;
    let lines =
        b"operands 7 8\ndicts d0.0 d0.1 d0.2\nsaves\nmodes local packed\ngraphics 1\n state width 33554432 cap 1\n base\n";
    assert_eq!(rt; text.as_slice(), lines.as_slice());
    Ok(())
}

#[test]
fn paper_is_told(rt: HostRuntime) -> Result<(), NoMemory> {
    let alloc = rt.alloc();
    let mut text = Text::new(alloc);
    push_rand_line(&mut text, &Value::Rand(1))?;
    push_paper_line(&mut text, &Value::Paper(Paper::blank(alloc, 9, 2)?))?;
    let mut paper = Paper::blank(alloc, 9, 2)?;
    paper.fill(
        Span {
            row: 1,
            first: 3,
            past: 9,
        },
        true,
    );
    push_paper_line(&mut text, &Value::Paper(paper))?;
    assert_eq!(rt;
        text.as_slice(),
        b"rand 1\npaper blank\npaper 0000 1f80\n".as_slice()
    );
    Ok(())
}
