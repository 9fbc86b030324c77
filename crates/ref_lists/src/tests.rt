// Stores are made, and rows of the command that moves a reference.
ghost use Rattle.std.specs.Prelude.{◌≡◌, IfOk};
ghost use Rattle.ref_lists.specs.Held.{IsMade};

use crate::{RefStore, Reference};
use enc_tables::SliceKind;
use picture_planes::Picture;
use std::alloc::{AllocError as OutOfMemory, Global};

// A reference of one macroblock, blank but for its first luma sample.
fn reference(alloc: Global, sample: u8, poc: i32, frame_num: u16) -> Result<Reference, OutOfMemory>
    ensures made { IfOk result (λ r. IsMade 16 16 r) }
    ensures poc { IfOk result (λ r. r.poc ≡ poc) }
    ensures frame_num { IfOk result (λ r. r.frame_num ≡ frame_num) }
{
    let mut r = Reference::new(alloc, 16, 16)?;
    r.picture.row_mut(0, 0)[0] = sample;
    r.poc = poc;
    r.frame_num = frame_num;
    Ok(r)
}

// The command for a source whose first luma sample is 20.
fn moved_of(alloc: Global, older: u8, newer: u8) -> Result<Option<u16>, OutOfMemory> {
    let mut store = RefStore::new(alloc, 16, 16, 2)?;
    let mut first = reference(alloc, older, 0, 0)?;
    let mut second = reference(alloc, newer, 2, 1)?;
    store.slide(&mut first);
    store.slide(&mut second);
    let mut source = Picture::new(alloc, 16, 16)?;
    source.row_mut(0, 0)[0] = 20;
    Ok(store.lists(SliceKind::P, 4).moved(&source))
}

#[test]
fn stores_are_made_where_there_is_memory(rt: HostRuntime) -> Result<(), OutOfMemory> {
    for refs in 1..5 {
        let store = RefStore::new(rt.alloc(), 64, 48, refs)?;
        assert_eq!(rt; store.lists(SliceKind::P, 0).held.len(), 0);
    }
    Ok(())
}

// The newer reference differs by 10; the older one by 10, and by 9.
#[test]
fn less_different_references_are_moved(rt: HostRuntime) -> Result<(), OutOfMemory> {
    for (older, expected) in [(30, None), (29, Some(1))] {
        let moved = moved_of(rt.alloc(), older, 10)?;
        assert_eq!(rt; moved, expected);
    }
    Ok(())
}
