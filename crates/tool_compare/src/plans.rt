// `plans`: plans pictures and prints the plans. The settings are the width and the height, how many pictures there are,
// 1 or 0 for the 8x8 transform, the quantisation parameter, and the first row of macroblocks of each slice. The numbers
// of all lines are the pictures.
ghost use Rattle.std.specs.Prelude.{◌≤◌};
ghost use Rattle.enc_tables.specs.Choice.{SmallCosts};

use crate::pictures::read_picture;
use enc_tables::{MOST_HEIGHT, MOST_WIDTH, MbKind, MbPlan, RowPlan, SliceKind, choose};
use intra_plans::plan_row;
use picture_planes::Picture;
use tool_input::{Fault, Numbers, all_numbers};

const WORDS: &str = "plans WIDTH HEIGHT PICTURES T8X8 QP FIRST_ROW..";

// How the pictures are planned.
#[derive(Clone, Copy)]
struct Way {
    t8x8: bool,
    qp: u8,
}

/// The first row of the slice that has this row: the last of them that isn't below it.
pub fn slice_start(first_rows: &[u32], row: u32) -> u32
    ensures { result ≤ row }
{
    let mut start = 0;
    for first in first_rows {
        if *first <= row {
            start = *first;
        }
    }
    start
}

fn kind_name(kind: MbKind) -> &'static str {
    match kind {
        MbKind::Intra16 => "Intra16",
        MbKind::Intra8 => "Intra8",
        MbKind::Intra4 => "Intra4",
        _ => "other",
    }
}

fn print_numbers(text: &mut String, name: &str, numbers: &[u8]) -> Result<(), Fault> {
    write!(text, " {name}")?;
    for number in numbers {
        write!(text, " {number}")?;
    }
    Ok(())
}

// A line with a macroblock's plan, and the kind that it leads to.
fn print_plan(rt: &HostRuntime, plan: &MbPlan, way: Way) -> Result<(), Fault>
    requires costs { SmallCosts plan.now }
    requires qp { way.qp ≤ 51 }
{
    let mut text = String::new(rt.alloc());
    write!(text, "mode16 {}", plan.mode16)?;
    print_numbers(&mut text, "modes8", plan.modes8.as_slice())?;
    print_numbers(&mut text, "modes4", plan.modes4.as_slice())?;
    write!(text, " chroma_mode {}", plan.chroma_mode)?;
    let [cost16, cost8, cost4] = plan.intra;
    write!(text, " intra {cost16} {cost8} {cost4}")?;
    let kind = choose(SliceKind::I, plan, way.qp, way.t8x8).0;
    write!(text, " kind {}", kind_name(kind))?;
    rt.println(text.as_str())?;
    Ok(())
}

fn print_row(
    rt: &HostRuntime,
    source: &Picture,
    first_rows: &[u32],
    row: u32,
    way: Way,
    out: &mut RowPlan,
) -> Result<(), Fault>
    requires { way.qp ≤ 51 }
{
    let first_row = slice_start(first_rows, row);
    if source.y.width % 16 != 0 || (source.y.width / 16) as usize != out.mbs.len() {
        return Err(Fault::Words(WORDS));
    }
    if row >= source.y.height / 16 {
        return Err(Fault::Words(WORDS));
    }
    plan_row(source, SliceKind::I, first_row, row, way.t8x8, out);
    for plan in &out.mbs {
        print_plan(rt, plan, way)?;
    }
    Ok(())
}

/// Plans the pictures of the lines by these settings.
pub fn plan_pictures(rt: &HostRuntime, settings: &[u32], lines: &[String]) -> Result<(), Fault> {
    let [width, height, count, t8x8, qp, first_rows @ ..] = settings else {
        return Err(Fault::Words(WORDS));
    };
    let sizes = (1..=MOST_WIDTH).contains(width) && (1..=MOST_HEIGHT).contains(height);
    if !sizes || *qp > 51 {
        return Err(Fault::Words(WORDS));
    }
    let way = Way {
        t8x8: *t8x8 != 0,
        qp: *qp as u8,
    };
    let alloc = rt.alloc();
    let numbers = all_numbers(alloc, lines)?;
    let mut numbers = Numbers {
        left: numbers.as_slice(),
    };
    let mut plan = RowPlan::new(alloc, *width / 16)?;
    for _ in 0..*count {
        let source = read_picture(alloc, &mut numbers, *width, *height)?;
        for row in 0..source.y.height / 16 {
            print_row(rt, &source, first_rows, row, way, &mut plan)?;
        }
    }
    Ok(())
}
