// Searches of which nobody counts the differences.
ghost use Rattle.std.specs.Prelude.{◌≡◌, ◌≤◌, ◌<◌, ℕ};
ghost use Rattle.block_sums.specs.Tables.{IsTableOf};
ghost use Rattle.picture_planes.specs.Margins.{IsFilled};
ghost use Rattle.spec_search.specs.Window.{IsWindowBest, compared_in};
ghost use Rattle.motion_search.specs.Planes.{costs, bounds, IsBlockOf, SameSize};

use crate::steps::{Steps, begun};
use crate::window::search;
use block_sums::SumTable;
use picture_planes::Plane;
use spec_search::{Best, Block};
use std::marker::Brand;
use std::sync::ledger::{Blank, Ledger};

fn search_from<L: Ledger>(
    source: &Plane,
    reference: &Plane,
    source_sums: &SumTable,
    sums: &SumTable,
    block: Block,
    range: u32,
    blank: Blank,
) -> Best
    requires margin { reference.now.pad ≡ 40 }
    requires filled { IsFilled reference.now }
    requires sizes { SameSize source.now reference.now }
    requires source_table { IsTableOf source_sums.now source.now }
    requires table { IsTableOf sums.now reference.now }
    requires block { IsBlockOf source.now block }
    requires range { (1 ≤ range) × (range ≤ 32) }
    requires name { blank.name ≡ L.name }
    requires parts { blank.parts ≡ L.parts }
    requires some { 0 < blank.parts }
    ensures best { IsWindowBest (costs source.now reference.now block) range result.dx result.dy result.sad }
    ensures compared { result.compared ≡ compared_in (costs source.now reference.now block) (bounds source.now reference.now block) range }
{
    let mut steps: Steps<L> = begun(blank);
    search(
        source,
        reference,
        source_sums,
        sums,
        block,
        range,
        &mut steps,
    )
}

/// `search` with a count of its own.
pub fn search_alone(
    source: &Plane,
    reference: &Plane,
    source_sums: &SumTable,
    sums: &SumTable,
    block: Block,
    range: u32,
) -> Best
    requires margin { reference.now.pad ≡ 40 }
    requires filled { IsFilled reference.now }
    requires sizes { SameSize source.now reference.now }
    requires source_table { IsTableOf source_sums.now source.now }
    requires table { IsTableOf sums.now reference.now }
    requires block { IsBlockOf source.now block }
    requires range { (1 ≤ range) × (range ≤ 32) }
    ensures best { IsWindowBest (costs source.now reference.now block) range result.dx result.dy result.sad }
    ensures compared { result.compared ≡ compared_in (costs source.now reference.now block) (bounds source.now reference.now block) range }
{
    search_from::<Brand>(
        source,
        reference,
        source_sums,
        sums,
        block,
        range,
        Blank::new(1),
    )
}
