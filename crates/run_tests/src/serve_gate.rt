//! Two searches and a push at once: that scripts are answered beside each other, and that no search keeps the turn.
//!
//! Client 0's search has taken its look, and waits before it is evaluated until client 1's push was answered. Client 1 pushes
//! after a search of its own, which has its look too and waits until client 0's has one. If scripts were answered one after
//! another, or if a search kept the turn from its look on, one of the two would wait for what never comes, and give up at
//! its limit.

use disk_model::MemDisk;
use io_edges::Gate;
use run_support::{FINE, PUSH_X, play_through};
use std::sync::atomic::{AtomicBool, Ordering};
use std::thread::yield_now;

/// How often a client that waits asks whether it may go on.
const TURNS: u32 = 10_000_000;

// What has happened so far.
#[derive(Drop)]
struct Points {
    // Client 0's search has its look.
    begun: AtomicBool,
    // Client 1's push was answered.
    pushed: AtomicBool,
    // One of them gave up.
    gave_up: AtomicBool,
}

impl Points {
    fn new() -> Points {
        Points {
            begun: AtomicBool::new(false),
            pushed: AtomicBool::new(false),
            gave_up: AtomicBool::new(false),
        }
    }

    // Waits until that has happened.
    fn wait_for(&self, happened: &AtomicBool) {
        for _ in 0..TURNS {
            if happened.load(Ordering::SeqCst) {
                return;
            }
            yield_now();
        }
        self.gave_up.store(true, Ordering::SeqCst);
    }
}

impl Gate for Points {
    // A search of client c passes 2c once it has its look, and a push of its passes 2c + 1 once it is accepted.
    fn pass(&self, point: u32) {
        match point {
            0 => {
                self.begun.store(true, Ordering::SeqCst);
                self.wait_for(&self.pushed);
            }
            2 => self.wait_for(&self.begun),
            3 => self.pushed.store(true, Ordering::SeqCst),
            _ => {}
        }
    }
}

#[test]
fn two_searches_and_a_push_at_once(rt: HostRuntime) {
    let alloc = rt.alloc();
    let input = format!(in alloc; "0 search {{ }}\n1 search {{ }}\n1 {PUSH_X}\n");
    let input = input.expect(&rt, "memory");
    let points = Points::new();
    let words = ["serve", "--clients", "2"];
    let disk = MemDisk::empty(alloc);
    let played = play_through(&rt, alloc, disk, &words, input.as_str(), FINE, &[], &points);
    let played = played.expect(&rt, "memory");
    assert!(rt; !points.gave_up.load(Ordering::SeqCst));
    assert_eq!(rt; played.status, 0);
    let text = played.text.as_slice();
    // Both looks come before the push.
    let lines =
        b"0 ok search as_of=0 traces=0 {\"traces\":[]}\n1 ok search as_of=0 traces=0 {\"traces\":[]}\n1 ok push 0 accepted=1 rejected=0 skipped=0\n";
    assert_eq!(rt; text, lines.as_slice());
}
