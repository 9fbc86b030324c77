// Searches of nine partitions of which nobody counts the differences.
ghost use Rattle.std.specs.Prelude.{◌≡◌, ◌≤◌, ◌<◌, ℕ};
ghost use Rattle.std.specs.List.{sum_by};
ghost use Rattle.block_sums.specs.Tables.{IsTableOf};
ghost use Rattle.picture_planes.specs.Margins.{IsFilled};
ghost use Rattle.spec_search.specs.Window.{IsWindowBest, compared_in};
ghost use Rattle.spec_inter_plans.specs.InterPlans.{at, partitions};
ghost use Rattle.motion_search.specs.Planes.{costs, bounds, IsBlockOf, SameSize};
ghost use Rattle.nine_search.specs.Partitions.{partition_block};
ghost use Rattle.nine_search.specs.NineSearches.{dx_at, dy_at, sad_at};

use crate::nine::search_nine;
use crate::partitions::Nine;
use block_sums::SumTable;
use motion_search::{Steps, begun};
use picture_planes::Plane;
use std::marker::Brand;
use std::sync::ledger::{Blank, Ledger};

fn nine_from<L: Ledger>(
    source: &Plane,
    reference: &Plane,
    source_sums: &SumTable,
    sums: &SumTable,
    x: u32,
    y: u32,
    range: u32,
    blank: Blank,
) -> Nine
    requires margin { reference.now.pad ≡ 40 }
    requires filled { IsFilled reference.now }
    requires sizes { SameSize source.now reference.now }
    requires source_table { IsTableOf source_sums.now source.now }
    requires table { IsTableOf sums.now reference.now }
    requires macroblock { IsBlockOf source.now (at x y 16 16) }
    requires range { (1 ≤ range) × (range ≤ 32) }
    requires name { blank.name ≡ L.name }
    requires parts { blank.parts ≡ L.parts }
    requires some { 0 < blank.parts }
    ensures best { (k : ℕ) → k < 9 → IsWindowBest (costs source.now reference.now (partition_block x y k)) range (dx_at result k) (dy_at result k) (sad_at result k) }
    ensures compared { result.compared ≡ sum_by (λ block. compared_in (costs source.now reference.now block) (bounds source.now reference.now block) range) (partitions x y) }
{
    let mut steps: Steps<L> = begun(blank);
    search_nine(
        source,
        reference,
        source_sums,
        sums,
        x,
        y,
        range,
        &mut steps,
    )
}

/// `search_nine` with a count of its own.
pub fn search_nine_alone(
    source: &Plane,
    reference: &Plane,
    source_sums: &SumTable,
    sums: &SumTable,
    x: u32,
    y: u32,
    range: u32,
) -> Nine
    requires margin { reference.now.pad ≡ 40 }
    requires filled { IsFilled reference.now }
    requires sizes { SameSize source.now reference.now }
    requires source_table { IsTableOf source_sums.now source.now }
    requires table { IsTableOf sums.now reference.now }
    requires macroblock { IsBlockOf source.now (at x y 16 16) }
    requires range { (1 ≤ range) × (range ≤ 32) }
    ensures best { (k : ℕ) → k < 9 → IsWindowBest (costs source.now reference.now (partition_block x y k)) range (dx_at result k) (dy_at result k) (sad_at result k) }
    ensures compared { result.compared ≡ sum_by (λ block. compared_in (costs source.now reference.now block) (bounds source.now reference.now block) range) (partitions x y) }
{
    nine_from::<Brand>(
        source,
        reference,
        source_sums,
        sums,
        x,
        y,
        range,
        Blank::new(1),
    )
}
