//! The lines of the state of the random numbers and of the paper.
ghost use Rattle.std.specs.Prelude.{◌≡◌, ◌++◌, drop, nat_eq, take, OnOk};
ghost use Rattle.std.specs.List.{list_all};
ghost use Rattle.ps_shapes.specs.Bits.{stride_of};
ghost use Rattle.ps_objects.specs.declared.place.Value.TheVariants as value;
ghost use Rattle.dump_text.specs.Papers as spec;

use copy_lists::{NoMemory, Text};
use dump_lines::{push_decimal, push_hex};
use ps_kinds::{Paper, Value};

/// Appends the line of the state of the random numbers.
#[tactic(auto, using(dump_lines::proofs::Pieces::three_pieces), unfolding(crate::specs::Papers::rand_line))]
fn push_state_line(text: &mut Text, state: u32) -> Result<(), NoMemory>
    ensures { OnOk result (text.new ≡ text.old ++ spec.rand_line (value.Rand state)) }
{
    text.extend(b"rand ")?;
    push_decimal(text, state)?;
    text.push(b'\n')
}

/// Appends what is told of the state of the random numbers.
#[tactic(auto, unfolding(crate::specs::Papers::rand_line))]
pub(crate) fn push_rand_line(text: &mut Text, value: &Value) -> Result<(), NoMemory>
    ensures { OnOk result (text.new ≡ text.old ++ spec.rand_line value.now) }
{
    match value {
        Value::Rand(state) => push_state_line(text, *state),
        _ => Ok(()),
    }
}

/// The first row of some, which has so many bytes.
#[tactic(auto, using(crate::proofs::Rows::take_within))]
fn first_row(stride: usize, bytes: &[u8]) -> &[u8]
    ensures { result.now ≡ take stride bytes.now }
{
    let cut = stride.min(bytes.len());
    &bytes[..cut]
}

/// The rows below the first.
#[tactic(auto, using(crate::proofs::Rows::drop_within))]
fn rows_below(stride: usize, bytes: &[u8]) -> &[u8]
    ensures { result.now ≡ drop stride bytes.now }
{
    let cut = stride.min(bytes.len());
    &bytes[cut..]
}

/// Appends a row in hex behind a space.
#[tactic(auto, using(dump_lines::proofs::Pieces::two_pieces), unfolding(crate::specs::Papers::row_text))]
fn push_row(text: &mut Text, row: &[u8]) -> Result<(), NoMemory>
    ensures { OnOk result (text.new ≡ text.old ++ spec.row_text row.now) }
{
    text.push(b' ')?;
    push_hex(text, row)
}

/// Appends rows of so many bytes in hex, behind a space each.
#[tactic(auto, using(crate::proofs::Rows::no_row))]
fn push_rows(text: &mut Text, stride: usize, rows: u32, bytes: &[u8]) -> Result<(), NoMemory>
    ensures { OnOk result (text.new ≡ text.old ++ spec.rows_text stride rows bytes.now) }
{
    let mut rest = bytes;
    for row in 0..rows {
        push_row(text, first_row(stride, rest))?;
        rest = rows_below(stride, rest);
    }
    Ok(())
}

/// How many bytes a row takes.
fn stride(paper: &Paper) -> usize
    ensures { result ≡ stride_of paper.now.width }
{
    (paper.width() as usize + 7) / 8
}

/// Whether all bytes are 0.
fn are_zero(bytes: &[u8]) -> bool
    ensures { result ≡ list_all (λ byte. nat_eq byte 0) bytes.now }
{
    bytes.iter().all(|byte| *byte == 0)
}

/// Appends that the paper is blank, or its rows.
fn push_rows_or_blank(text: &mut Text, paper: &Paper) -> Result<(), NoMemory>
    ensures { OnOk result (text.new ≡ text.old ++ spec.rows_or_blank paper.now) }
{
    let bytes = paper.as_bytes();
    if are_zero(bytes) {
        text.extend(b" blank")
    } else {
        push_rows(text, stride(paper), paper.height(), bytes)
    }
}

/// Appends the line of the paper.
#[tactic(auto, using(dump_lines::proofs::Pieces::three_pieces), unfolding(crate::specs::Papers::paper_line))]
fn push_sheet_line(text: &mut Text, paper: &Paper) -> Result<(), NoMemory>
    ensures { OnOk result (text.new ≡ text.old ++ spec.paper_line (value.Paper paper.now)) }
{
    text.extend(b"paper")?;
    push_rows_or_blank(text, paper)?;
    text.push(b'\n')
}

/// Appends what is told of the paper.
#[tactic(auto, unfolding(crate::specs::Papers::paper_line))]
pub(crate) fn push_paper_line(text: &mut Text, value: &Value) -> Result<(), NoMemory>
    ensures { OnOk result (text.new ≡ text.old ++ spec.paper_line value.now) }
{
    match value {
        Value::Paper(paper) => push_sheet_line(text, paper),
        _ => Ok(()),
    }
}
