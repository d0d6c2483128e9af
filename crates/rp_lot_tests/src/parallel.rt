ghost use Rattle.std.specs.Prelude.{ℕ, ◌*◌, ◌≤◌, ◌^◌};

use rp_parallel::{Judge, judge_all};
use std::alloc::{AllocError, Global};
use std::sync::atomic::{AtomicBool, AtomicUsize, Ordering};

/// The numbers from 0, each of which is judged as its square.
#[derive(Drop)]
struct Squares {
    count: usize,
    ghost small: { count ≤ 2 ^ 16 },
}

impl Judge for Squares {
    type Out = u64;

    ghost size = { λ s. s.count };

    ghost meaning = { λ s i. i * i };

    fn count(&self) -> usize {
        self.count
    }

    fn judge(&self, _alloc: Global, i: usize) -> Result<u64, AllocError> {
        let i = i as u64;
        Ok(i * i)
    }
}

#[test]
fn squares_come_in_order_whatever_the_grain(rt: HostRuntime) {
    for grain in [1, 2, 9] {
        let squares = judge_all(&rt, rt.alloc(), grain, &Squares { count: 5 }).expect(
            &rt,
            "no memory",
        );
        assert_eq!(rt; squares.as_slice(), [0, 1, 4, 9, 16].as_slice());
    }
}

/// Two items, each of which is judged as its number. Each waits a while for the other to begin.
#[derive(Drop)]
struct Pair {
    came: [AtomicBool; 2],
    met: [AtomicBool; 2],
}

impl Judge for Pair {
    type Out = usize;

    ghost size = { λ _. 2 };

    ghost meaning = { λ _ i. i };

    fn count(&self) -> usize {
        2
    }

    fn judge(&self, _alloc: Global, i: usize) -> Result<usize, AllocError> {
        self.came[i].store(true, Ordering::SeqCst);
        for _ in 0..u32::MAX {
            if self.came[1 - i].load(Ordering::SeqCst) {
                self.met[i].store(true, Ordering::SeqCst);
                break;
            }
        }
        Ok(i)
    }
}

#[test]
fn two_judges_meet(rt: HostRuntime) {
    let pair = Pair {
        came: [AtomicBool::new(false), AtomicBool::new(false)],
        met: [AtomicBool::new(false), AtomicBool::new(false)],
    };
    let numbers = judge_all(&rt, rt.alloc(), 1, &pair).expect(&rt, "no memory");
    assert_eq!(rt; numbers.as_slice(), [0, 1].as_slice());
    for met in &pair.met {
        assert!(rt; met.load(Ordering::SeqCst));
    }
}

/// `count` items, each of which is judged as its number. The number of items judged at a time is counted, and its
/// maximum stored.
#[derive(Drop)]
struct Counted {
    count: usize,
    now: AtomicUsize,
    most: AtomicUsize,
}

impl Judge for Counted {
    type Out = usize;

    ghost size = { λ s. s.count };

    ghost meaning = { λ _ i. i };

    fn count(&self) -> usize {
        self.count
    }

    fn judge(&self, _alloc: Global, i: usize) -> Result<usize, AllocError> {
        let now = self.now.fetch_add(1, Ordering::SeqCst);
        self.most.fetch_max(now, Ordering::SeqCst);
        // Long enough for others to begin.
        for _ in 0..100_000u32 {
            let _ = self.now.load(Ordering::SeqCst);
        }
        self.now.fetch_sub(1, Ordering::SeqCst);
        Ok(i)
    }
}

#[test]
fn few_threads_judge_many_items(rt: HostRuntime) {
    let counted = Counted {
        count: 1000,
        now: AtomicUsize::new(0),
        most: AtomicUsize::new(0),
    };
    let numbers = judge_all(&rt, rt.alloc(), 1, &counted).expect(&rt, "no memory");
    assert_eq!(rt; numbers.len(), 1000);
    // The first of those that run at once finds no other one.
    assert!(rt; counted.most.load(Ordering::SeqCst) < 8);
}
