// Rows of one picture, planned by two threads.
ghost use Rattle.std.specs.Prelude.{true};

use crate::{PlanTask, blank_plans, make_pools, plan_by_workers};
use block_sums::SumTable;
use enc_edge::Gate;
use enc_tables::SliceKind;
use picture_planes::Picture;
use ref_lists::RefStore;
use std::sync::atomic::{AtomicU64, Ordering};
use std::test::Fail;

// The thread that enters first waits until the three other rows have entered, for so many turns at most. So all three
// are drawn by the other thread: neither one thread alone nor equal shares would do.
#[derive(Drop)]
struct WaitingGate {
    rows: [AtomicU64; 4],
    entered: AtomicU64,
    others: AtomicU64,
    gave_up: AtomicU64,
}

impl Gate for WaitingGate {
    ghost let_in = { λ gate row. true };

    fn enter(&self, row: u32) {
        let count = self.rows.get(row as usize).unwrap_or(&self.others);
        count.fetch_add(1, Ordering::SeqCst);
        if self.entered.fetch_add(1, Ordering::SeqCst) > 0 {
            return;
        }
        for _ in 0..100_000_000u64 {
            if self.entered.load(Ordering::SeqCst) >= 4 {
                return;
            }
        }
        self.gave_up.store(1, Ordering::SeqCst);
    }
}

#[test]
fn a_free_thread_takes_the_next_row(rt: HostRuntime) -> Result<(), Fail> {
    let alloc = rt.alloc();
    let mut source = Picture::new(alloc, 16, 64)?;
    source.pad_edges();
    let mut sums = SumTable::new(alloc, 16, 64, 40)?;
    sums.fill(&source.y);
    let store = RefStore::new(alloc, 16, 64, 2)?;
    let lists = store.lists(SliceKind::I, 0);
    let task = PlanTask {
        source: &source,
        sums: &sums,
        lists: &lists,
        kind: SliceKind::I,
        slices: 2,
        down: 4,
        range: 16,
        t8x8: true,
    };
    let gate = WaitingGate {
        rows: [
            AtomicU64::new(0),
            AtomicU64::new(0),
            AtomicU64::new(0),
            AtomicU64::new(0),
        ],
        entered: AtomicU64::new(0),
        others: AtomicU64::new(0),
        gave_up: AtomicU64::new(0),
    };
    let mut pools = make_pools(alloc, 1, 4, 2)?;
    let mut plans = blank_plans(alloc, 1, 4)?;
    let compared = plan_by_workers(
        &rt,
        alloc,
        &task,
        &gate,
        pools.as_mut_slice(),
        plans.as_mut_slice(),
    );
    assert_eq!(rt; compared, 0);
    assert_eq!(rt; gate.gave_up.load(Ordering::SeqCst), 0);
    assert_eq!(rt; gate.others.load(Ordering::SeqCst), 0);
    for count in &gate.rows {
        assert_eq!(rt; count.load(Ordering::SeqCst), 1);
    }
    for (row, plan) in plans.iter().enumerate() {
        assert_eq!(rt; plan.row as usize, row);
    }
    Ok(())
}
