// Lines of the report, as the reference encoder writes them.
use report_lines::{
    ReportHead, ReportPicture, ReportTotals, SliceKind, head_line, picture_line, totals_line,
};
use std::test::Fail;

#[test]
fn lines_of_a_report(rt: HostRuntime) -> Result<(), Fail> {
    let head = ReportHead {
        rate: 64000,
        cpb: 3200,
        delay: 2250,
        level: 10,
        slices: 1,
    };
    assert_eq!(rt;
        head_line(&head).as_str(),
        "rate 64000 cpb 3200 delay 2250 level 10 slices 1\n"
    );
    let picture = ReportPicture {
        coded: 1,
        display: 2,
        kind: SliceKind::P,
        qp: 25,
        coarsest: false,
        bits: 928,
        filler: 1616,
        have: 3184,
    };
    assert_eq!(rt;
        picture_line(&picture).as_str(),
        "1 2 P qp 25 plain bits 928 filler 1616 have 3184\n"
    );
    let totals = ReportTotals {
        pictures: 3,
        bits: 6080,
        comparisons: 1838,
    };
    assert_eq!(rt;
        totals_line(&totals).as_str(),
        "pictures 3 bits 6080 comparisons 1838\n"
    );
    Ok(())
}
