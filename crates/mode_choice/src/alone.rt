// Plans of rows for which nobody counts the compared vectors.
ghost use Rattle.std.specs.Prelude.{◌≡◌, ◌≤◌, ◌<◌, ◌+◌, ◌*◌, length, vec_len};
ghost use Rattle.std.specs.List.{All};
ghost use Rattle.block_sums.specs.Tables.{IsTableOf};
ghost use Rattle.enc_tables.specs.Choice.{SmallCosts};
ghost use Rattle.picture_planes.specs.Pictures.{planes_of};
ghost use Rattle.ref_lists.specs.Entries.{ArePlaces};
ghost use Rattle.ref_lists.specs.Held.{AreHeld};
ghost use Rattle.spec_inter_plans.specs.InterPlans.{row_plans, row_compared};
ghost use Rattle.spec_partitions.specs.InRange.{HasEntries};
ghost use Rattle.mode_choice.specs.Given.{search_of, used};

use crate::rows::plan_row;
use block_sums::SumTable;
use enc_tables::{RowPlan, SliceKind};
use motion_search::{Steps, begun};
use picture_planes::Picture;
use ref_lists::Lists;
use std::marker::Brand;
use std::sync::ledger::{Blank, Ledger};

fn plan_from<L: Ledger>(
    source: &Picture,
    source_sums: &SumTable,
    lists: &Lists<'_>,
    kind: SliceKind,
    first_row: u32,
    row: u32,
    range: u32,
    t8x8: bool,
    out: &mut RowPlan,
    blank: Blank,
)
    requires width { source.now.y.width ≡ 16 * vec_len out.old.mbs }
    requires row { 16 * row + 16 ≤ source.now.y.height }
    requires first { first_row ≤ row }
    requires entries { HasEntries kind (length lists.now.list0.items) (length lists.now.list1.items) }
    requires inside { ArePlaces (length lists.now.held.now) lists.now.list0.items × ArePlaces (length lists.now.held.now) lists.now.list1.items }
    requires held { AreHeld source.now.y.width source.now.y.height lists.now.held.now }
    requires sums { IsTableOf source_sums.now source.now.y }
    requires range { (1 ≤ range) × (range ≤ 32) }
    requires name { blank.name ≡ L.name }
    requires parts { blank.parts ≡ L.parts }
    requires some { 0 < blank.parts }
    ensures row { out.new.row ≡ row }
    ensures plans { out.new.mbs.items ≡ row_plans kind (search_of (vec_len out.old.mbs) lists.now (planes_of source.now) range) first_row t8x8 row }
    ensures compared { out.new.compared ≡ row_compared (used kind (search_of (vec_len out.old.mbs) lists.now (planes_of source.now) range)) row }
    ensures small { All SmallCosts out.new.mbs.items }
{
    let mut steps: Steps<L> = begun(blank);
    plan_row(
        source,
        source_sums,
        lists,
        kind,
        first_row,
        row,
        range,
        t8x8,
        out,
        &mut steps,
    );
}

/// `plan_row` with a count of its own.
pub fn plan_row_alone(
    source: &Picture,
    source_sums: &SumTable,
    lists: &Lists<'_>,
    kind: SliceKind,
    first_row: u32,
    row: u32,
    range: u32,
    t8x8: bool,
    out: &mut RowPlan,
)
    requires width { source.now.y.width ≡ 16 * vec_len out.old.mbs }
    requires row { 16 * row + 16 ≤ source.now.y.height }
    requires first { first_row ≤ row }
    requires entries { HasEntries kind (length lists.now.list0.items) (length lists.now.list1.items) }
    requires inside { ArePlaces (length lists.now.held.now) lists.now.list0.items × ArePlaces (length lists.now.held.now) lists.now.list1.items }
    requires held { AreHeld source.now.y.width source.now.y.height lists.now.held.now }
    requires sums { IsTableOf source_sums.now source.now.y }
    requires range { (1 ≤ range) × (range ≤ 32) }
    ensures row { out.new.row ≡ row }
    ensures plans { out.new.mbs.items ≡ row_plans kind (search_of (vec_len out.old.mbs) lists.now (planes_of source.now) range) first_row t8x8 row }
    ensures compared { out.new.compared ≡ row_compared (used kind (search_of (vec_len out.old.mbs) lists.now (planes_of source.now) range)) row }
    ensures small { All SmallCosts out.new.mbs.items }
{
    plan_from::<Brand>(
        source,
        source_sums,
        lists,
        kind,
        first_row,
        row,
        range,
        t8x8,
        out,
        Blank::new(1),
    )
}
