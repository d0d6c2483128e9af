use rp_cell::{Cell, Drops, Held, SideProofs, Sides, Slimmed, Strict, Weak};
use rp_cert::{Edge, Proof, Proofs, RingStep, RingSteps, Slice};
use rp_clip::Clip;
use rp_lists::{Name, Names, Numbers};
use rp_space::{
    Corner, Corners, Half, HalfFault, Halves, Inside, IntBox, Meeting, Outside, Pair, Point,
    PointFault, Term,
};

/// Shows that a type may be sent to other threads and shared with them.
fn needs_send_sync<T: Send + Sync>() {}

#[test]
fn types_cross_threads() {
    needs_send_sync::<Half>();
    needs_send_sync::<HalfFault>();
    needs_send_sync::<Point>();
    needs_send_sync::<PointFault>();
    needs_send_sync::<IntBox>();
    needs_send_sync::<Corner>();
    needs_send_sync::<Corners>();
    needs_send_sync::<Name>();
    needs_send_sync::<Names>();
    needs_send_sync::<Numbers>();
    needs_send_sync::<Halves>();
    needs_send_sync::<Pair>();
    needs_send_sync::<Meeting>();
    needs_send_sync::<Term>();
    needs_send_sync::<Inside>();
    needs_send_sync::<Outside>();
    needs_send_sync::<Proof>();
    needs_send_sync::<Proofs>();
    needs_send_sync::<Edge>();
    needs_send_sync::<RingStep>();
    needs_send_sync::<RingSteps>();
    needs_send_sync::<Slice>();
    needs_send_sync::<Clip<256>>();
    needs_send_sync::<Strict>();
    needs_send_sync::<Weak>();
    needs_send_sync::<Cell>();
    needs_send_sync::<Drops>();
    needs_send_sync::<Slimmed>();
    needs_send_sync::<SideProofs>();
    needs_send_sync::<Sides>();
    needs_send_sync::<Held>();
}
